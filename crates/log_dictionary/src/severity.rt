//! How grave a message is.

ghost use Rattle.std.specs.Prelude.{◌≡◌, IfSome, IfNone};
ghost use Rattle.log_dictionary.specs.declared.severity.Severity.{Severity};
ghost use Rattle.log_dictionary.specs.Severities.{severity_name, severity_number};

/// How grave a message is. The gravest comes first.
#[derive(Clone, Copy, Debug, PartialEq, Eq)]
pub enum Severity {
    Error,
    Warning,
    Notice,
    Debug,
}

impl Severity {
    /// Its number, from 1 for the gravest to 4. A level keeps the numbers up to its own.
    pub fn number(self) -> u8
        ensures { result ≡ severity_number self }
    {
        match self {
            Severity::Error => 1,
            Severity::Warning => 2,
            Severity::Notice => 3,
            Severity::Debug => 4,
        }
    }

    /// Its name in traces, dictionaries and printed lines.
    pub fn name(self) -> &'static str
        ensures { result.now ≡ severity_name self }
    {
        match self {
            Severity::Error => "ERROR",
            Severity::Warning => "WARNING",
            Severity::Notice => "NOTICE",
            Severity::Debug => "DEBUG",
        }
    }
}

/// The severity of this name.
pub fn severity_named(name: &[u8]) -> Option<Severity>
    ensures some { IfSome result (λ severity. name.now ≡ severity_name severity) }
    ensures none { IfNone result ((severity : Severity) → name.now ≡ severity_name severity → ⊥) }
{
    match name {
        b"ERROR" => Some(Severity::Error),
        b"WARNING" => Some(Severity::Warning),
        b"NOTICE" => Some(Severity::Notice),
        b"DEBUG" => Some(Severity::Debug),
        _ => None,
    }
}
