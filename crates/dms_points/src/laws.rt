//! A law of the points that are kept of a trail.

ghost use Rattle.dms_points.specs.Points.{KeepsLive};

/// Each point that is kept of a trail, with a Schema, is live by the entries of the trail.
pub fn kept_points_law()
    ensures { KeepsLive }
{}
