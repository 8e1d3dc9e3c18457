//! Merging lists of stamps that come one at a time.

ghost use Rattle.std.specs.Prelude.{◌≡◌, ◌↔◌, ℕ, ◌<◌, ◌/◌, ◌^◌, true, false, length, replicate, slice_get, Some, All, IfOk, position};
ghost use Rattle.std.specs.List.{position_or_len};
ghost use Rattle.stamp_merge.specs.Merging.{merge_order};
ghost use Rattle.stamp_merge.specs.Mergers.{fresh_list, wants as list_wants, heads_of, list_at, with_head, without_head, with_close, NoneWants, IsSpent};
ghost use Rattle.stamp_merge.specs.Winners.{earlier as earlier_key, AllWon, Played};

use crate::merge::MergeKey;
use std::alloc::{AllocError, Global};
use std::marker::Model;

/// What a merger answers.
#[derive(Clone, Copy, Debug, PartialEq, Eq)]
pub enum Next {
    /// The head of this list was taken: no head stands before it.
    Take(u32),
    /// This list has no head, and isn't closed. Nothing can be taken before it has one, or is closed.
    Want(u32),
    /// All lists are closed, and all stamps were taken.
    Done,
}

/// What a merger knows of a list: its head, which is the stamp that was pushed and not taken yet, and
/// whether more may come.
#[derive(Clone, Copy, Debug)]
struct ListState {
    head: Option<u64>,
    closed: bool,
}

impl ListState {
    fn wants(&self) -> bool
        ensures { result ≡ list_wants self.now }
    {
        self.head.is_none() && !self.closed
    }
}

// The place of the first list that wants a head, or that of the lists' end.
fn first_wanting(lists: &[ListState], from: usize) -> usize
    requires { (n : ℕ) → n < from → list_wants (list_at lists.now n) ≡ false }
    ensures { result ≡ position_or_len list_wants lists.now }
{
    for place in from..lists.len() {
        if lists[place].wants() {
            return place;
        }
    }
    lists.len()
}

// The key of a list that has no head: all heads stand before it.
const NO_HEAD: MergeKey = MergeKey {
    stamp: u64::MAX,
    list: u32::MAX,
};

// The one of two keys that is taken first.
#[tactic(auto, unfolding(crate::specs::Winners::earlier))]
fn earlier(a: MergeKey, b: MergeKey) -> MergeKey
    ensures { result ≡ earlier_key a b }
{
    if b.stamp < a.stamp || (b.stamp == a.stamp && b.list < a.list) {
        b
    } else {
        a
    }
}

// Makes this the key of the list, and plays the matches that it is in again.
fn play(winners: &mut [MergeKey], list: u32, key: MergeKey)
    requires won { AllWon winners.old }
    requires there { list < length winners.old / 2 }
    ensures { Played winners.old list key winners.new }
{
    let mut place = winners.len() / 2 + list as usize;
    winners[place] = key;
    while place > 1 {
        place /= 2;
        winners[place] = earlier(winners[2 * place], winners[2 * place + 1]);
    }
}

/// Lists of stamps that are merged while their stamps come. It keeps of each list no more than its head.
#[derive(Debug, Drop)]
pub struct Merger {
    lists: Vec<ListState>,
    // The tree of the matches in which heads meet. The second half are the lists' own keys, in the lists' order, and
    // in front of it the earlier of the keys at 2 n and 2 n + 1 stands at place n. So the one to be taken first is at
    // place 1. The key of a list that wants a head is an old one, until it has a head or is closed.
    winners: Vec<MergeKey>,
    // How many lists want a head, and a place in front of which there is none of them.
    wanting: usize,
    first: usize,
}

impl Model for Merger {
    ghost use Rattle.std.specs.Prelude.{List};
    ghost use Rattle.stamp_merge.specs.declared.merger.ListState.{ListState};

    ghost Value = { List ListState };

    ghost use Rattle.stamp_merge.specs.Winners.{IsMerger};

    ghost view = { λ m. m.lists.items };

    ghost invariant = { IsMerger };
}

impl Merger {
    /// So many lists, of which none has a stamp and none is closed. Room for their heads is taken here.
    ///
    /// # Errors
    ///
    /// There is no memory.
    pub fn make(alloc: Global, lists: u32) -> Result<Merger, AllocError>
        ensures { IfOk result (λ merger. merger ≡ replicate lists fresh_list) }
    {
        let fresh = ListState {
            head: None,
            closed: false,
        };
        // Without lists there is still a place 1.
        let keys = usize::max(lists as usize, 1);
        Ok(Merger {
            lists: Vec::from_elem(alloc, fresh, lists as usize)?,
            winners: Vec::from_elem(alloc, NO_HEAD, 2 * keys)?,
            wanting: lists as usize,
            first: 0,
        })
    }

    /// Makes the stamp the head of a list that has none and isn't closed. The stamps of a list are pushed
    /// in their order, so that none is below the one before it.
    pub fn push(&mut self, list: u32, stamp: u64)
        requires { list_wants (list_at self.old list) ≡ true }
        ensures { self.new ≡ with_head self.old list stamp }
    {
        self.lists[list as usize].head = Some(stamp);
        self.wanting -= 1;
        play(&mut self.winners, list, MergeKey { stamp, list });
    }

    /// Nothing more is going to come of the list. Its head, if it has one, is still taken.
    pub fn close(&mut self, list: u32)
        requires { list < length self.old }
        ensures { self.new ≡ with_close self.old list }
    {
        let state = &mut self.lists[list as usize];
        let wanted = state.wants();
        state.closed = true;
        if wanted {
            self.wanting -= 1;
            play(&mut self.winners, list, NO_HEAD);
        }
    }

    /// Takes the head that is the least, by stamp and then by list, once each list has a head or is closed.
    /// Else it says of the first list that isn't so, and all is as it was.
    pub fn next(&mut self) -> Next
        ensures take { (list : ℕ) → (result ≡ Next.Take list)
            ↔ (NoneWants self.old × (slice_get (merge_order (heads_of self.old)) 0 ≡ Some list)) }
        ensures want { (list : ℕ) → (result ≡ Next.Want list) ↔ (position list_wants self.old ≡ Some list) }
        ensures done { (result ≡ Next.Done) ↔ All IsSpent self.old }
        ensures taken { (list : ℕ) → result ≡ Next.Take list → self.new ≡ without_head self.old list }
        ensures kept { ((list : ℕ) → ¬ (result ≡ Next.Take list)) → self.new ≡ self.old }
    {
        if self.wanting > 0 {
            self.first = first_wanting(&self.lists, self.first);
            return Next::Want(self.first as u32);
        }
        // No list wants a head, so all keys are right.
        let key = self.winners[1];
        if key.list == NO_HEAD.list {
            return Next::Done;
        }
        let place = key.list as usize;
        let list = &mut self.lists[place];
        list.head = None;
        if list.closed {
            play(&mut self.winners, key.list, NO_HEAD);
        } else {
            // Its key may stay: the matches are played with its next head, or when it is closed.
            self.wanting += 1;
            self.first = place;
        }
        Next::Take(key.list)
    }
}
