//! Laws over totals. The functions do nothing: what they ensure is proved of the definitions.

ghost use Rattle.std.specs.Prelude.{◌≡◌, ℕ, ◌≤◌, ℤ, ◌≤ℤ◌, List, [], length, All, Contains, Option, Some, None, Result, Ok, Err};
ghost use Rattle.checkpoint_io.specs.declared.cause.Cause.{Cause as LogCause};
ghost use Rattle.checkpoint_io.specs.declared.header.Header.{Header};
ghost use Rattle.checkpoint_io.specs.declared.heads.TheConstants.{MAX_LOG};
ghost use Rattle.checkpoint_io.specs.Blocks.{Block, FileOf, messages_of};
ghost use Rattle.checkpoint_io.specs.Validity.{Valid};
ghost use Rattle.aggregation.specs.declared.totals.Totals.{Totals as LogTotals};
ghost use Rattle.aggregation.specs.declared.fault.AggregateFault.{AggregateFault as LogFault};
ghost use Rattle.aggregation.specs.Totals.{range_of, totals_of, argument_totals, totals_in, TotalsOf};
ghost use Rattle.aggregation.specs.Aggregating.{HaveAnswer, answer_for};
ghost use Rattle.aggregation.specs.Rows.{total_blocks, plain_totals, width_totals, long_totals, no_totals, long_numbers, long_number_totals};

/// The totals of 7, -3 and 7 are a count of 3, from -3 to 7, and a sum of 11. A width is an argument, a length narrows
/// nothing, and a text is no number.
pub fn worked_totals()
    ensures numbers { totals_in total_blocks 0 0 ≡ Some plain_totals }
    ensures width { totals_in total_blocks 1 0 ≡ Some width_totals }
    ensures not_narrowed { totals_in total_blocks 1 1 ≡ Some long_totals }
    ensures text { totals_in total_blocks 1 2 ≡ None }
    ensures past_the_arguments { totals_in total_blocks 0 1 ≡ None }
    ensures past_the_messages { totals_in total_blocks 2 0 ≡ None }
    ensures no_numbers { totals_of [] ≡ no_totals }
    ensures long_numbers { totals_of long_numbers ≡ long_number_totals }
{}

/// Of the same blocks totals are answered, that a text or what stands past the arguments is no such argument, and that
/// there is no such message past the messages.
pub fn worked_answers()
    ensures numbers { answer_for (messages_of total_blocks) 0 0 plain_totals ≡ Ok plain_totals }
    ensures text { answer_for (messages_of total_blocks) 1 2 no_totals ≡ Err LogFault.NoSuchArgument }
    ensures past_the_arguments { answer_for (messages_of total_blocks) 0 1 no_totals ≡ Err LogFault.NoSuchArgument }
    ensures past_the_messages { answer_for (messages_of total_blocks) 2 0 no_totals ≡ Err LogFault.NoSuchMessage }
{}

/// The range of numbers is from one of them to one of them, and none lies outside.
pub fn ranges_are_reached()
    ensures { (numbers : List ℤ) (least greatest : ℤ) → range_of numbers ≡ Some (least, greatest)
        → Contains numbers least × Contains numbers greatest
        × All (λ number. least ≤ℤ number) numbers × All (λ number. number ≤ℤ greatest) numbers }
{}

/// There is a range exactly where there are numbers.
pub fn no_numbers_have_no_range()
    ensures none { (numbers : List ℤ) → length numbers ≡ 0 → range_of numbers ≡ None }
    ensures some { (numbers : List ℤ) → range_of numbers ≡ None → length numbers ≡ 0 }
{}

/// A file has one outcome: totals, or that it has no such argument.
pub fn totals_are_one()
    ensures { (bytes : List ℕ) (id nth : ℕ) (totals other : Option LogTotals) → TotalsOf bytes id nth totals
        → TotalsOf bytes id nth other
        → totals ≡ other }
{}

/// A file that is a log from its first byte to its last has the totals of all its records.
pub fn whole_logs_have_all_totals()
    ensures { (header : Header) (blocks : List Block) (bytes : List ℕ) (id nth : ℕ)
        → FileOf header blocks bytes
        → Valid header blocks
        → TotalsOf bytes id nth (totals_in blocks id nth) }
{}

/// Such a file of no more than the most bytes that are read has one answer.
pub fn whole_logs_have_one_answer()
    ensures { (header : Header) (blocks : List Block) (bytes : List ℕ) (id nth : ℕ)
        (answer : Result LogTotals LogFault)
        → FileOf header blocks bytes
        → Valid header blocks
        → length bytes ≤ MAX_LOG
        → HaveAnswer id nth answer bytes
        → answer ≡ answer_for (messages_of blocks) id nth (argument_totals blocks id nth) }
{}

/// The answer that a file within that limit has tells its totals.
pub fn answers_tell_totals()
    ensures whole { (bytes : List ℕ) (id nth : ℕ) (totals : LogTotals) → HaveAnswer id nth (Ok totals) bytes
        → TotalsOf bytes id nth (Some totals) }
    ensures damaged { (bytes : List ℕ) (id nth offset : ℕ) (cause : LogCause) (front : Option LogTotals)
        → length bytes ≤ MAX_LOG
        → HaveAnswer id nth (Err (LogFault.Damaged offset cause front)) bytes
        → TotalsOf bytes id nth front }
{}
