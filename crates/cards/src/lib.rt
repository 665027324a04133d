// The cards that keep their files in an image that the caller lends, and the layer over any card, in one place.
#![tactic(auto)]

pub use delayed_card::{DelayedCard, Untold};
pub use direct_card::DirectCard;
pub use trouble_layer::{TROUBLES, TroubleLayer};
