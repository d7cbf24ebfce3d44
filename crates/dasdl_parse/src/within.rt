ghost use Rattle.std.specs.Prelude.{◌≡◌};
ghost use Rattle.dasdl_parse.specs.Grammar.{items_of, with_items, open_data_set, close_data_set, is_inside, is_deepest};

/// The data sets that are open, the innermost last, with the items that each has so far.
#[derive(Clone, Copy)]
pub enum Open {
    Outside,
    One(u8),
    Two(u8, u8),
    Three(u8, u8, u8),
}

impl Open {
    /// The items that the innermost one has so far, at most 60, and 0 where none is open.
    pub fn items(self) -> u8
        ensures { result ≡ items_of self }
    {
        match self {
            Open::Outside => 0,
            Open::One(items) => items,
            Open::Two(_, items) => items,
            Open::Three(_, _, items) => items,
        }
    }

    /// The same with so many items in the innermost one.
    pub fn with_items(self, items: u8) -> Open
        ensures { result ≡ with_items self items }
    {
        match self {
            Open::Outside => Open::Outside,
            Open::One(_) => Open::One(items),
            Open::Two(first, _) => Open::Two(first, items),
            Open::Three(first, second, _) => Open::Three(first, second, items),
        }
    }

    /// One more is open, with no item; the fourth is none, since at most three are open.
    pub fn open_data_set(self) -> Open
        ensures { result ≡ open_data_set self }
    {
        match self {
            Open::Outside => Open::One(0),
            Open::One(first) => Open::Two(first, 0),
            Open::Two(first, second) => Open::Three(first, second, 0),
            Open::Three(first, second, third) => Open::Three(first, second, third),
        }
    }

    /// The innermost one has ended.
    pub fn close_data_set(self) -> Open
        ensures { result ≡ close_data_set self }
    {
        match self {
            Open::Outside => Open::Outside,
            Open::One(_) => Open::Outside,
            Open::Two(first, _) => Open::One(first),
            Open::Three(first, second, _) => Open::Two(first, second),
        }
    }

    /// Whether one is open.
    pub fn is_inside(self) -> bool
        ensures { result ≡ is_inside self }
    {
        match self {
            Open::Outside => false,
            Open::One(_) => true,
            Open::Two(_, _) => true,
            Open::Three(_, _, _) => true,
        }
    }

    /// Whether three are open, the most that may be.
    pub fn is_deepest(self) -> bool
        ensures { result ≡ is_deepest self }
    {
        match self {
            Open::Outside => false,
            Open::One(_) => false,
            Open::Two(_, _) => false,
            Open::Three(_, _, _) => true,
        }
    }
}
