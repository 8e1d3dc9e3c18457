//! Worked command lines, each with what it asks for, and what holds of all lines. The functions do nothing: what they
//! ensure is proved of the definitions.

ghost use Rattle.std.specs.Prelude.{◌≡◌, Some, None, List, [], ◌∷◌, ◌++◌, codes};
ghost use Rattle.cli_words.specs.Commands.{WordBytes, Name, Awaits, word_of, given_of, options_of, command_of};
ghost use Rattle.cli_words.specs.Commands.{Command, Preprocess, Direct, Replay, Decompress};
ghost use Rattle.cli_words.specs.Commands.{Aggregate, Generate, Selftest, Schedule, Migrate, Inject, Header};
ghost use Rattle.cli_words.specs.declared.operands.TheConstants.{MAX_SOURCES};
ghost use Rattle.cli_words.specs.Rows.{meaning, replays, IsLawful, words_for};
ghost use Rattle.cli_words.specs.Usage.{usage_text};
ghost use Rattle.log_dictionary.specs.declared.severity.Severity.TheVariants.{Error, Warning, Notice, Debug};
ghost use Rattle.session_options.specs.Defaults.{default_options};
ghost use Rattle.session_options.specs.declared.options.Policy.TheVariants.{Wait, Shed};

/// Names may be any words but the empty one, and stand for themselves after `--`.
pub fn names_are_words()
    ensures one { meaning (codes "direct t") ≡ Some (Direct (codes "t")) }
    ensures dash { meaning (codes "direct -") ≡ Some (Direct (codes "-")) }
    ensures command { meaning (codes "direct direct") ≡ Some (Direct (codes "direct")) }
    ensures equals { meaning (codes "direct a=b") ≡ Some (Direct (codes "a=b")) }
    ensures schedule { meaning (codes "schedule f") ≡ Some (Schedule (codes "f")) }
    ensures ended { meaning (codes "direct t --") ≡ Some (Direct (codes "t")) }
    ensures option { meaning (codes "direct -- --level") ≡ Some (Direct (codes "--level")) }
    ensures letter { meaning (codes "decompress -- -l") ≡ Some (Decompress (codes "-l")) }
    ensures dashes { meaning (codes "decompress -- --") ≡ Some (Decompress (codes "--")) }
    ensures log { meaning (codes "decompress l") ≡ Some (Decompress (codes "l")) }
{}

/// Options stand anywhere before `--`, in any order and in two spellings. Without them the ring has 65,536 words, an
/// extent has 4,096 records at most, writers wait for room, and all calls are made.
pub fn options_are_set()
    ensures none { meaning (codes "replay t l") ≡ replays 65536 4096 Wait Debug }
    ensures ring { meaning (codes "replay t l --ring 2048") ≡ replays 2048 4096 Wait Debug }
    ensures batch { meaning (codes "replay t l --batch 128") ≡ replays 65536 128 Wait Debug }
    ensures wait { meaning (codes "replay t l --full wait") ≡ replays 65536 4096 Wait Debug }
    ensures drop { meaning (codes "replay t l --full drop") ≡ replays 65536 4096 Shed Debug }
    ensures level { meaning (codes "replay t l --level WARNING") ≡ replays 65536 4096 Wait Warning }
    ensures first { meaning (codes "replay --level NOTICE t l") ≡ replays 65536 4096 Wait Notice }
    ensures between { meaning (codes "replay t --ring 1024 l") ≡ replays 1024 4096 Wait Debug }
    ensures joined { meaning (codes "replay t --full=drop l") ≡ replays 65536 4096 Shed Debug }
    ensures all { meaning (codes "replay --batch 1 t --full=drop --ring=4096 l --level ERROR")
        ≡ replays 4096 1 Shed Error }
    ensures other { meaning (codes "replay --level=ERROR t l --ring 4096 --full drop --batch=1")
        ≡ replays 4096 1 Shed Error }
    ensures ended { meaning (codes "replay --ring=2048 -- t l") ≡ replays 2048 4096 Wait Debug }
    ensures names { meaning (codes "replay -- -t --ring")
        ≡ Some (Replay (codes "-t") (codes "--ring") default_options) }
    ensures dash { meaning (codes "replay - t") ≡ Some (Replay (codes "-") (codes "t") default_options) }
{}

/// The first word is a command, and nothing else comes in its place.
pub fn commands_come_first()
    ensures none { command_of [] ≡ None }
    ensures empty { meaning (codes "") ≡ None }
    ensures unknown { meaning (codes "print t") ≡ None }
    ensures capital { meaning (codes "Direct t") ≡ None }
    ensures help { meaning (codes "help") ≡ None }
    ensures help_option { meaning (codes "--help") ≡ None }
    ensures version { meaning (codes "--version") ≡ None }
    ensures option { meaning (codes "--level ERROR replay t l") ≡ None }
    ensures ring { meaning (codes "--ring=2048 replay t l") ≡ None }
    ensures end { meaning (codes "-- direct t") ≡ None }
{}

/// Each command has as many names as its form, none of them empty, and `replay` has two that differ.
pub fn names_are_counted()
    ensures none { meaning (codes "direct") ≡ None }
    ensures two { meaning (codes "direct t u") ≡ None }
    ensures empty { meaning (codes "direct ") ≡ None }
    ensures empty_after { meaning (codes "direct -- ") ≡ None }
    ensures no_log { meaning (codes "decompress --") ≡ None }
    ensures two_logs { meaning (codes "decompress l -- m") ≡ None }
    ensures one { meaning (codes "replay t") ≡ None }
    ensures three { meaning (codes "replay t l m") ≡ None }
    ensures equal { meaning (codes "replay t t") ≡ None }
    ensures no_trace { meaning (codes "replay  l") ≡ None }
    ensures level_is_name { meaning (codes "replay t l -- --level ERROR") ≡ None }
{}

/// `preprocess` has a dictionary and, behind it, one source or more. None of them is the dictionary, and one may stand
/// there twice.
pub fn dictionaries_have_sources()
    ensures one { meaning (codes "preprocess d m.cc") ≡ Some (Preprocess (codes "d") (codes "m.cc" ∷ [])) }
    ensures two { meaning (codes "preprocess d m n") ≡ Some (Preprocess (codes "d") (codes "m" ∷ codes "n" ∷ [])) }
    ensures same { meaning (codes "preprocess d m m") ≡ Some (Preprocess (codes "d") (codes "m" ∷ codes "m" ∷ [])) }
    ensures dash { meaning (codes "preprocess -- -d -m") ≡ Some (Preprocess (codes "-d") (codes "-m" ∷ [])) }
    ensures limit { MAX_SOURCES ≡ 1024 }
    ensures no_name { meaning (codes "preprocess") ≡ None }
    ensures no_source { meaning (codes "preprocess d") ≡ None }
    ensures itself { meaning (codes "preprocess d m d") ≡ None }
    ensures no_dictionary { meaning (codes "preprocess  m") ≡ None }
    ensures empty { meaning (codes "preprocess d m ") ≡ None }
    ensures letter { meaning (codes "preprocess d -m") ≡ None }
    ensures option { meaning (codes "preprocess d m --level ERROR") ≡ None }
{}

/// `inject` and `header` have a dictionary, and what they make is another name than those that they read. The source of
/// `inject` may be the dictionary.
pub fn outputs_are_other_files()
    ensures inject { meaning (codes "inject d m.cc o.cc")
        ≡ Some (Inject (codes "d") (codes "m.cc") (codes "o.cc")) }
    ensures header { meaning (codes "header d h") ≡ Some (Header (codes "d") (codes "h")) }
    ensures same { meaning (codes "inject d d o") ≡ Some (Inject (codes "d") (codes "d") (codes "o")) }
    ensures dash { meaning (codes "header -- -d -h") ≡ Some (Header (codes "-d") (codes "-h")) }
    ensures onto_dictionary { meaning (codes "inject d m d") ≡ None }
    ensures onto_source { meaning (codes "inject d m m") ≡ None }
    ensures header_onto_dictionary { meaning (codes "header d d") ≡ None }
    ensures no_output { meaning (codes "inject d m") ≡ None }
    ensures two_outputs { meaning (codes "inject d m o p") ≡ None }
    ensures no_header { meaning (codes "header d") ≡ None }
    ensures two_headers { meaning (codes "header d h i") ≡ None }
    ensures no_source { meaning (codes "inject d  o") ≡ None }
    ensures no_name { meaning (codes "inject d m ") ≡ None }
    ensures no_dictionary { meaning (codes "header  h") ≡ None }
    ensures option { meaning (codes "inject d m o --level ERROR") ≡ None }
{}

/// `migrate` has an old log and a new one, which is another file.
pub fn new_logs_are_other_files()
    ensures migrate { meaning (codes "migrate l n") ≡ Some (Migrate (codes "l") (codes "n")) }
    ensures dash { meaning (codes "migrate -- -l -n") ≡ Some (Migrate (codes "-l") (codes "-n")) }
    ensures onto_itself { meaning (codes "migrate l l") ≡ None }
    ensures no_new { meaning (codes "migrate l") ≡ None }
    ensures two_new { meaning (codes "migrate l n o") ≡ None }
    ensures no_old { meaning (codes "migrate  n") ≡ None }
    ensures no_name { meaning (codes "migrate l ") ≡ None }
    ensures option { meaning (codes "migrate l n --level ERROR") ≡ None }
{}

/// An option is one of the command's own, spelled whole, and is given once, with its value.
pub fn options_are_known()
    ensures help { meaning (codes "direct --help") ≡ None }
    ensures letter { meaning (codes "direct t -h") ≡ None }
    ensures number { meaning (codes "direct -1") ≡ None }
    ensures not_here { meaning (codes "direct t --level ERROR") ≡ None }
    ensures not_there { meaning (codes "decompress --batch=1 l") ≡ None }
    ensures nowhere { meaning (codes "preprocess d m --full drop") ≡ None }
    ensures unknown { meaning (codes "replay t l --threads 2") ≡ None }
    ensures short { meaning (codes "replay t l --rin 2048") ≡ None }
    ensures long { meaning (codes "replay t l --rings 2048") ≡ None }
    ensures capital { meaning (codes "replay t l --Ring 2048") ≡ None }
    ensures one_dash { meaning (codes "replay t l -ring 2048") ≡ None }
    ensures three_dashes { meaning (codes "replay t l ---ring 2048") ≡ None }
    ensures nameless { meaning (codes "replay t l --=2048") ≡ None }
    ensures of_names { meaning (codes "replay t l --names m") ≡ None }
    ensures twice { meaning (codes "replay t l --level ERROR --level ERROR") ≡ None }
    ensures two_spellings { meaning (codes "replay t l --ring=2048 --batch 1 --ring 2048") ≡ None }
    ensures two_batches { meaning (codes "replay --batch 1 t l --batch 2") ≡ None }
    ensures two_policies { meaning (codes "replay t l --full wait --full drop") ≡ None }
    ensures no_value { meaning (codes "replay t l --level") ≡ None }
    ensures no_ring { meaning (codes "replay t l --batch 1 --ring") ≡ None }
{}

/// A value is the next word, whatever it begins with, or what follows the first `=`.
pub fn values_follow()
    ensures empty { meaning (codes "replay t l --level=") ≡ None }
    ensures equals { meaning (codes "replay t l --level==ERROR") ≡ None }
    ensures dashes { meaning (codes "replay --level -- t l") ≡ None }
    ensures option { meaning (codes "replay t l --ring --ring 2048") ≡ None }
    ensures letter { meaning (codes "replay t l --full -d") ≡ None }
{}

/// A number is 1 to 20 decimal digits, the zeros in front counted, and lies in its bounds.
pub fn numbers_have_bounds()
    ensures least_ring { meaning (codes "replay t l --ring 1024") ≡ replays 1024 4096 Wait Debug }
    ensures below_ring { meaning (codes "replay t l --ring 1023") ≡ None }
    ensures greatest_ring { meaning (codes "replay t l --ring 1048576") ≡ replays 1048576 4096 Wait Debug }
    ensures above_ring { meaning (codes "replay t l --ring 1048577") ≡ None }
    ensures least_batch { meaning (codes "replay t l --batch 1") ≡ replays 65536 1 Wait Debug }
    ensures below_batch { meaning (codes "replay t l --batch 0") ≡ None }
    ensures greatest_batch { meaning (codes "replay t l --batch 65536") ≡ replays 65536 65536 Wait Debug }
    ensures above_batch { meaning (codes "replay t l --batch 65537") ≡ None }
    ensures zeros { meaning (codes "replay t l --ring 00002048") ≡ replays 2048 4096 Wait Debug }
    ensures twenty { meaning (codes "replay t l --ring 00000000000000002048") ≡ replays 2048 4096 Wait Debug }
    ensures too_many { meaning (codes "replay t l --ring 000000000000000002048") ≡ None }
    ensures beyond { meaning (codes "replay t l --ring 99999999999999999999") ≡ None }
    ensures wrapped { meaning (codes "replay t l --ring 18446744073709553664") ≡ None }
    ensures empty { meaning (codes "replay t l --ring=") ≡ None }
    ensures plus { meaning (codes "replay t l --ring +2048") ≡ None }
    ensures minus { meaning (codes "replay t l --ring -2048") ≡ None }
    ensures joined_minus { meaning (codes "replay t l --ring=-2048") ≡ None }
    ensures letter { meaning (codes "replay t l --ring 2048k") ≡ None }
    ensures hexadecimal { meaning (codes "replay t l --ring 0x800") ≡ None }
    ensures comma { meaning (codes "replay t l --ring 2,048") ≡ None }
    ensures space { command_of (codes "replay" ∷ codes "t" ∷ codes "l" ∷ codes "--ring" ∷ codes " 2048" ∷ []) ≡ None }
{}

/// `aggregate` has a log and two numbers of 32 bits. `generate` and `selftest` have a seed of 64 bits, 1,000,000 calls
/// at most, and 1 to 64 writers.
pub fn numbers_stand_in_line()
    ensures aggregate { meaning (codes "aggregate l 0 4294967295") ≡ Some (Aggregate (codes "l") 0 4294967295) }
    ensures ids { meaning (codes "aggregate l 4294967296 0") ≡ None }
    ensures places { meaning (codes "aggregate l 0 4294967296") ≡ None }
    ensures no_place { meaning (codes "aggregate l 0") ≡ None }
    ensures more { meaning (codes "aggregate l 0 0 0") ≡ None }
    ensures no_log { meaning (codes "aggregate  0 0") ≡ None }
    ensures option { meaning (codes "aggregate l 0 0 --level ERROR") ≡ None }
    ensures generate { meaning (codes "generate 1 2 1") ≡ Some (Generate 1 2 1) }
    ensures greatest { meaning (codes "generate 18446744073709551615 1000000 64")
        ≡ Some (Generate 18446744073709551615 1000000 64) }
    ensures least { meaning (codes "generate 00 0 01") ≡ Some (Generate 0 0 1) }
    ensures beyond { meaning (codes "generate 18446744073709551616 2 1") ≡ None }
    ensures calls { meaning (codes "generate 1 1000001 1") ≡ None }
    ensures no_writer { meaning (codes "generate 1 2 0") ≡ None }
    ensures writers { meaning (codes "generate 1 2 65") ≡ None }
    ensures minus { meaning (codes "generate 1 2 -1") ≡ None }
    ensures empty { meaning (codes "generate 1  1") ≡ None }
    ensures selftest { meaning (codes "selftest 7 100000 8") ≡ Some (Selftest 7 100000 8) }
    ensures few { meaning (codes "selftest 7 100000") ≡ None }
    ensures ring { meaning (codes "selftest 7 100000 8 --ring 2048") ≡ None }
{}

/// A level is the name of a severity, and `--full` says `wait` or `drop`.
pub fn values_are_names()
    ensures lower_case { meaning (codes "replay t l --level error") ≡ None }
    ensures unknown { meaning (codes "replay t l --level INFO") ≡ None }
    ensures number { meaning (codes "replay t l --level=1") ≡ None }
    ensures no_policy { meaning (codes "replay t l --full shed") ≡ None }
    ensures capital { meaning (codes "replay t l --full Wait") ≡ None }
    ensures part { meaning (codes "replay t l --full=dro") ≡ None }
    ensures no_name { meaning (codes "replay t l --full=") ≡ None }
{}

/// An option may be moved over a name and over another option, and has two spellings of one meaning.
pub fn options_stand_anywhere()
    ensures moved { (name word option value : WordBytes) (words : List WordBytes) →
        word_of name ≡ Name → word_of word ≡ Awaits option →
        given_of (name ∷ word ∷ value ∷ words) ≡ given_of (word ∷ value ∷ name ∷ words) }
    ensures turned { (names : List WordBytes) (one other : WordBytes
        × WordBytes) (options : List (WordBytes × WordBytes)) →
        options_of names (one ∷ other ∷ options) ≡ options_of names (other ∷ one ∷ options) }
    ensures spelled { (word option value : WordBytes) (words : List WordBytes) → word_of word ≡ Awaits option →
        given_of (word ∷ value ∷ words) ≡ given_of ((word ++ (codes "=" ++ value)) ∷ words) }
{}

/// Each command that keeps the rules has a line, whatever its names begin with.
pub fn commands_have_lines()
    ensures { (command : Command) → IsLawful command → command_of (words_for command) ≡ Some command }
{}

/// The names of a command aren't empty, what it makes is another name than what it reads, its numbers lie in their
/// bounds, and `preprocess` has enough sources and not too many.
pub fn commands_are_lawful()
    ensures { (words : List WordBytes) (command : Command) → command_of words ≡ Some command → IsLawful command }
{}

/// The usage text names the commands with their operands and options, one in a line.
pub fn the_usage_text_has_these_lines()
    ensures { usage_text ≡ codes "usage:\n"
        ++ codes "  nanolog preprocess DICT FILE..\n"
        ++ codes "  nanolog replay TRACE LOG [--ring N] [--batch B] [--full wait|drop] [--level S]\n"
        ++ codes "  nanolog decompress LOG\n"
        ++ codes "  nanolog aggregate LOG ID NTH\n"
        ++ codes "  nanolog direct TRACE\n"
        ++ codes "  nanolog generate SEED CALLS WRITERS\n"
        ++ codes "  nanolog selftest SEED CALLS WRITERS\n"
        ++ codes "  nanolog schedule FILE\n"
        ++ codes "  nanolog migrate OLD NEW\n"
        ++ codes "  nanolog inject DICT FILE OUT\n"
        ++ codes "  nanolog header DICT OUT\n" }
{}
