//! What the ends of a ring know, and the rule that ties it to the words of the table.

use atomic_table::{Join, Play, Split, TableRule};
use printf_grammar::ArgType;
use ring_machine::{RoamerRecord, WriterRecord};
use std::collections::LinkedList;
use std::marker::{Brand, PhantomData};

/// What a seat of the table knows: whether it may store the writer's words and the roamer's, how many data words there
/// are, for each id the types of its message's arguments, the first stamp, and the records of both ends. No value of it
/// is made.
pub struct Known {
    pub writes: bool,
    pub reads: bool,
    pub size: u64,
    pub types: LinkedList<LinkedList<ArgType>>,
    pub first: u64,
    pub writer: WriterRecord,
    pub roamer: RoamerRecord,
}

/// The rule of a table that is a ring of so many data words.
pub struct Ringed;

impl TableRule<(), Known, usize> for Ringed {
    ghost use Rattle.word_ring.specs.Rule.{newcomer, IsRingTable};

    ghost holds = { IsRingTable };

    ghost first = { newcomer };
}

/// The plan of a ring.
pub trait Planned {
    ghost use Rattle.ring_core.specs.Plans.{Plan};

    ghost plan: { Plan };
}

impl Planned for Brand {
    ghost use Rattle.word_ring.specs.Rule.{no_plan};

    ghost plan = { no_plan };
}

/// How what is known is parted between the writer and the roamer.
pub struct Roles<K> {
    marker: PhantomData<K>,
}

impl<K: Planned> Split<Known> for Roles<K> {
    ghost use Rattle.word_ring.specs.Rule.{writer_of, roamer_of};

    ghost left = { writer_of K.plan };

    ghost right = { roamer_of K.plan };
}

/// What both ends know together.
pub struct Both;

impl Join<Known> for Both {
    ghost use Rattle.word_ring.specs.Rule.{both_of, spent};

    ghost both = { both_of };

    ghost spent = { spent };
}

/// The writer found how far places are released.
pub struct Look;

impl Play<(), Known> for Look {
    ghost use Rattle.word_ring.specs.Plays.{Looks};

    ghost then = { Looks };
}

/// The writer stored a word of its stream.
pub struct Put;

impl Play<(), Known> for Put {
    ghost use Rattle.word_ring.specs.Plays.{PutsWord};

    ghost then = { PutsWord };
}

/// The writer published all that it had stored.
pub struct Publish;

impl Play<(), Known> for Publish {
    ghost use Rattle.word_ring.specs.Plays.{Publishes};

    ghost then = { Publishes };
}

/// The writer closed the ring.
pub struct Close;

impl Play<(), Known> for Close {
    ghost use Rattle.word_ring.specs.Plays.{Closes};

    ghost then = { Closes };
}

/// The roamer found how far words are published, and whether the ring is closed.
pub struct Load;

impl Play<(), Known> for Load {
    ghost use Rattle.word_ring.specs.Plays.{Loads};

    ghost then = { Loads };
}

/// The roamer read the next word of the writer's stream.
pub struct Read;

impl Play<(), Known> for Read {
    ghost use Rattle.word_ring.specs.Plays.{ReadsWord};

    ghost then = { ReadsWord };
}

/// The roamer released all places that it had read.
pub struct Release;

impl Play<(), Known> for Release {
    ghost use Rattle.word_ring.specs.Plays.{Releases};

    ghost then = { Releases };
}

/// What both ends did is known to one seat.
pub struct Settle;

impl Play<(), Known> for Settle {
    ghost use Rattle.word_ring.specs.Plays.{Settles};

    ghost then = { Settles };
}
