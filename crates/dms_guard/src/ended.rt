ghost use Rattle.std.specs.Prelude.{◌≡◌};

use dms_status::Status;

/// How a command over a site ended, and the site.
#[derive(Drop)]
pub struct Ended<S> {
    pub status: Status,
    pub site: S,
}

impl<S> Ended<S> {
    /// The site, taken out.
    pub fn into_site(self) -> S
        ensures { result ≡ self.site }
    {
        let Ended { status: _, site } = self;
        site
    }
}
