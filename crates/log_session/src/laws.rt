//! Laws over the definitions. The functions do nothing: what they ensure is proved of the definitions.

ghost use Rattle.std.specs.Prelude.{ℕ, List};
ghost use Rattle.printf_grammar.specs.declared.argument.Value.{Value};
ghost use Rattle.log_dictionary.specs.declared.message.Message.{Message};
ghost use Rattle.log_dictionary.specs.Calls.{Takes};
ghost use Rattle.ring_core.specs.Plans.{plan_of};
ghost use Rattle.log_session.specs.Writers.{Knows};

/// What the dictionary takes for which a ring was made may be logged into it, and nothing else.
pub fn writers_may_log_what_the_dictionary_takes()
    ensures may { (messages : List Message) (first id : ℕ) (args : List Value) → Takes messages id args
        → Knows (plan_of messages first) id args }
    ensures only { (messages : List Message) (first id : ℕ) (args : List Value)
        → Knows (plan_of messages first) id args
        → Takes messages id args }
{}
