// Why a kind of number refuses a call.
ghost use Rattle.std.specs.Prelude.{◌≡◌};
ghost use Rattle.kinds.specs.Refusals.{reason_number, number_of, position_of};
ghost use Rattle.kinds.specs.declared.refusal.Refusal.TheVariants.{Misfit};

/// Why an exact value does not fit. Whoever counts with a kind passes it on as it is.
#[derive(Clone, Copy, PartialEq, Eq, Debug)]
pub enum Reason {
    TooLarge,
}

impl Reason {
    /// The number by which the refusal is known.
    pub fn number(self) -> u8
        ensures { result ≡ reason_number self }
    {
        match self {
            Reason::TooLarge => 14,
        }
    }
}

/// Why a kind of number refuses a call.
#[derive(Clone, Copy, PartialEq, Eq, Debug)]
pub enum Refusal {
    /// The memory for a text is shorter than the longest text.
    Memory,
    /// A whole number is out of range.
    Number { position: usize },
    /// The divisor is zero.
    ZeroDivisor,
    /// The exact result does not fit.
    Misfit(Reason),
}

impl Refusal {
    /// The number by which a refusal is known.
    pub fn number(self) -> u8
        ensures { result ≡ number_of self }
    {
        match self {
            Refusal::Memory => 6,
            Refusal::Number { .. } => 7,
            Refusal::ZeroDivisor => 12,
            Refusal::Misfit(reason) => reason.number(),
        }
    }

    /// The position that it tells, if any.
    pub fn position(self) -> Option<usize>
        ensures { result ≡ position_of self }
    {
        match self {
            Refusal::Number { position } => Some(position),
            _ => None,
        }
    }
}

/// So that `?` passes a reason on.
impl From<Reason> for Refusal {
    ghost from_gives = { λ e r. r ≡ Misfit e };

    fn from(reason: Reason) -> Refusal {
        Self::Misfit(reason)
    }
}
