use std::alloc::{AllocError, AllocFailed};
use std::error::Error;
use std::fmt;

/// The first fault that is met in a text from the left. A place is the number of bytes from it to the end.
#[derive(Clone, Copy, Debug, PartialEq, Eq)]
pub enum Fault {
    /// See [`TemplateFault::Unclosed`].
    Unclosed(usize),
    /// See [`TemplateFault::BadDirective`].
    BadDirective(usize),
    /// See [`TemplateFault::BadExpression`].
    BadExpression(usize),
    /// See [`TemplateFault::UnsupportedMethod`].
    UnsupportedMethod(usize),
    /// See [`TemplateFault::Escape`].
    Escape(usize),
    /// See [`TemplateFault::ParamAssigned`].
    ParamAssigned(usize),
    /// See [`TemplateFault::TooDeep`].
    TooDeep(usize),
}

/// Why a text is not read as a template: the first fault that is met from the left. A place is a number of bytes from
/// the start of the text.
#[derive(Clone, Copy, Debug, PartialEq, Eq)]
pub enum TemplateFault {
    /// The text has more than 307,200 bytes. It is told before all else.
    TooLong,
    /// Here begins the outermost construct that is not closed at the end: a directive with a block, a bracket, a
    /// string, a comment, raw text, or a reference in braces.
    Unclosed(usize),
    /// Here stands the `#` of a directive that cannot stand there, or that has a wrong form; or, where the text has no
    /// other fault, that of the first call of a macro that is not defined or takes another number of arguments.
    BadDirective(usize),
    /// Here stands the first byte with which an expression or a reference does not go on, or a number that is no
    /// 64-bit whole number.
    BadExpression(usize),
    /// Here stands the name of a method that no value has with that number of arguments.
    UnsupportedMethod(usize),
    /// Here stands a `\` directly before `$` or `#`: there are no escapes.
    Escape(usize),
    /// Here stands the name of a macro's parameter that is set, or that a loop sets.
    ParamAssigned(usize),
    /// Here stands what opens the 65th level: a bracket, a `!`, a `not` or a directive with a block.
    TooDeep(usize),
    /// There was no memory for the template.
    Memory,
}

/// Prints the name, and the place in brackets: `Unclosed(0)`, `TooLong`.
impl fmt::Display for TemplateFault {
    ghost use Rattle.std.specs.Prelude.{Some};
    ghost use Rattle.vtl_grammar.specs.Printed.{printed};

    ghost output = { λ fault. Some (printed fault) };

    fn fmt<W: fmt::Write>(&self, f: &mut fmt::Formatter<W>) -> fmt::Result {
        match self {
            TemplateFault::TooLong => f.write_str("TooLong"),
            TemplateFault::Unclosed(at) => write!(f, "Unclosed({at})"),
            TemplateFault::BadDirective(at) => write!(f, "BadDirective({at})"),
            TemplateFault::BadExpression(at) => write!(f, "BadExpression({at})"),
            TemplateFault::UnsupportedMethod(at) => write!(f, "UnsupportedMethod({at})"),
            TemplateFault::Escape(at) => write!(f, "Escape({at})"),
            TemplateFault::ParamAssigned(at) => write!(f, "ParamAssigned({at})"),
            TemplateFault::TooDeep(at) => write!(f, "TooDeep({at})"),
            TemplateFault::Memory => f.write_str("Memory"),
        }
    }
}

impl Error for TemplateFault {}

impl From<AllocError> for TemplateFault {
    ghost use Rattle.std.specs.Prelude.{◌≡◌};
    ghost use Rattle.vtl_grammar.specs.declared.fault.TemplateFault.TheVariants.{Memory as memory};

    ghost from_gives = { λ _ fault. fault ≡ memory };

    fn from(_: AllocError) -> Self {
        TemplateFault::Memory
    }
}

impl<T: Drop> From<AllocFailed<T>> for TemplateFault {
    ghost use Rattle.std.specs.Prelude.{◌≡◌};
    ghost use Rattle.vtl_grammar.specs.declared.fault.TemplateFault.TheVariants.{Memory as memory};

    ghost from_gives = { λ _ fault. fault ≡ memory };

    fn from(_: AllocFailed<T>) -> Self {
        TemplateFault::Memory
    }
}
