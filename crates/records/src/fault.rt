// One refusal: why, which layer refused, and the place.
ghost use Rattle.std.specs.Prelude.{◌≡◌, ◌≤◌, [], length, Some};
ghost use Rattle.records.specs.Faults.{fault, refused_at, told};
ghost use Rattle.records.specs.Words.{layer_word, refusal_text};

use crate::refusal::Refusal;
use std::fmt;

/// The layer that refuses.
#[derive(Clone, Copy, PartialEq, Eq, Debug)]
pub enum Layer {
    /// The text of a drawing; places are lines, counted from 1.
    Text,
    /// The tables, workspaces and numbers that planning is given; places are records, counted from 0.
    Table,
    /// The drawing as a whole; places are actors.
    Plan,
    /// The output of the listing.
    Listing,
    /// A run; places are actors or links, as the refusal says, or 0.
    Run,
    /// One guard by itself; the place is 0.
    Guard,
}

impl Layer {
    /// The word of the layer.
    pub fn word(self) -> &'static str
        ensures word { result.now ≡ layer_word self }
        ensures len { length result.now ≤ 7 }
    {
        match self {
            Layer::Text => "text",
            Layer::Table => "table",
            Layer::Plan => "plan",
            Layer::Listing => "listing",
            Layer::Run => "run",
            Layer::Guard => "guard",
        }
    }
}

/// The word of the layer.
impl fmt::Display for Layer {
    ghost output = { λ x. Some (layer_word x) };

    fn fmt<W: fmt::Write>(&self, f: &mut fmt::Formatter<W>) -> fmt::Result {
        f.write_str(self.word())
    }
}

/// A refusal. It is made where it is found, complete, and passed up unchanged.
#[derive(Clone, Copy, PartialEq, Eq, Debug)]
pub struct Fault {
    pub refusal: Refusal,
    pub layer: Layer,
    pub place: usize,
}

impl Fault {
    /// The refusal for this reason, by this layer, at this place.
    pub fn new(refusal: Refusal, layer: Layer, place: usize) -> Fault
        ensures { result ≡ fault refusal layer place }
    {
        Fault {
            refusal,
            layer,
            place,
        }
    }

    /// Refuses for this reason at the place that was found, if one was.
    pub fn at_found(found: Option<usize>, refusal: Refusal, layer: Layer) -> Result<(), Fault>
        ensures answer { result ≡ refused_at refusal layer found }
        ensures view { told (λ _. []) result ≡ told (λ _. []) (refused_at refusal layer found) }
    {
        match found {
            Some(place) => Err(Fault::new(refusal, layer, place)),
            None => Ok(()),
        }
    }
}

/// `refused NUMBER LAYER PLACE`.
impl fmt::Display for Fault {
    ghost output = { λ x. Some (refusal_text x) };

    fn fmt<W: fmt::Write>(&self, f: &mut fmt::Formatter<W>) -> fmt::Result {
        let number = self.refusal.number();
        let layer = self.layer;
        let place = self.place;
        write!(f, "refused {number} {layer} {place}")
    }
}
