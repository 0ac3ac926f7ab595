//! The names of the fields of a journal's lines.
ghost use Rattle.std.specs.Prelude.{◌≡◌, Some};
ghost use Rattle.journal.specs.Names.{name_text};

use std::fmt;

/// The word that a field of a line begins with; its figures follow it.
#[derive(Clone, Copy)]
pub enum Name {
    Serial,
    Contracted,
    Capacity,
    Energy,
    Kwh,
    First,
    Second,
    Index,
    Year,
    Costs,
    Peaks,
    Sent,
    Delivered,
    Losses,
    Coefficients,
    Interest,
    Close,
    Draw,
    Release,
    Hold,
}

impl Name {
    /// The word itself.
    pub fn text(self) -> &'static str
        ensures { result.now ≡ name_text self }
    {
        match self {
            Name::Serial => "serial",
            Name::Contracted => "contracted",
            Name::Capacity => "capacity",
            Name::Energy => "energy",
            Name::Kwh => "kwh",
            Name::First => "first",
            Name::Second => "second",
            Name::Index => "index",
            Name::Year => "year",
            Name::Costs => "costs",
            Name::Peaks => "peaks",
            Name::Sent => "sent",
            Name::Delivered => "delivered",
            Name::Losses => "losses",
            Name::Coefficients => "coefficients",
            Name::Interest => "interest",
            Name::Close => "close",
            Name::Draw => "draw",
            Name::Release => "release",
            Name::Hold => "hold",
        }
    }
}

impl fmt::Display for Name {
    ghost output = { λ n. Some (name_text n) };

    fn fmt<W: fmt::Write>(&self, f: &mut fmt::Formatter<W>) -> fmt::Result {
        f.write_str(self.text())
    }
}
