// The one fault that every refusal comes to.
ghost use Rattle.std.specs.Prelude.{Some};
ghost use Rattle.tickets.specs.Writing.{layer_text, fault_text};

use std::fmt;

#[derive(Clone, Copy, PartialEq, Eq)]
pub enum Layer {
    Ticket,
    Catalogue,
    Register,
}

// The number is the refusal's in the list, which people know it by.
#[derive(Clone, Copy, PartialEq, Eq)]
pub struct Fault {
    pub number: u8,
    pub layer: Layer,
    pub place: usize,
}

impl fmt::Display for Layer {
    ghost output = { λ layer. Some (layer_text layer) };

    fn fmt<W: fmt::Write>(&self, f: &mut fmt::Formatter<W>) -> fmt::Result {
        match self {
            Layer::Ticket => write!(f, "T"),
            Layer::Catalogue => write!(f, "C"),
            Layer::Register => write!(f, "G"),
        }
    }
}

// The number, the layer and the place.
impl fmt::Display for Fault {
    ghost output = { λ fault. Some (fault_text fault) };

    fn fmt<W: fmt::Write>(&self, f: &mut fmt::Formatter<W>) -> fmt::Result {
        let number = self.number;
        let layer = self.layer;
        let place = self.place;
        write!(f, "{number} {layer} {place}")
    }
}
