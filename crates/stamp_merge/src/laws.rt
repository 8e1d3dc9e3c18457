//! Laws and worked examples of the order. The functions do nothing: what they ensure is proved of
//! the definitions.

ghost use Rattle.std.specs.Prelude.{◌≡◌, ◌≢◌, ℕ, ◌+◌, ◌<◌, ◌==◌, List, [], ◌∷◌, ◌++◌, length, map, replicate, count_by, slice_index_or, All, false};
ghost use Rattle.std.specs.Option.{option_to_list};
ghost use Rattle.stamp_merge.specs.Merging.{stamp_before, merged, merge_order};
ghost use Rattle.stamp_merge.specs.Mergers.{fresh_list, list_at, IsSpent, Merging, pushed_to, last_or, Merges, MergingGoesOn};
ghost use Rattle.stamp_merge.specs.Rows.{tied_lists, Runs, asked_run, unasked_run};
ghost use Rattle.stamp_merge.specs.declared.merge.MergeKey.{MergeKey};
ghost use Rattle.stamp_merge.specs.declared.merger.ListState.{ListState};

/// Each list is taken from as often as it has stamps.
pub fn orders_take_each_stamp_once()
    ensures { (lists : List (List ℕ)) (n : ℕ)
        → count_by (λ list. list == n) (merge_order lists) ≡ length (slice_index_or lists n []) }
{}

/// The stamps that are taken never fall, and equal ones are taken by the lists' numbers.
pub fn orders_are_merged()
    ensures { (lists : List (List ℕ)) (k : ℕ) (d : MergeKey) → k + 1 < length (merged lists)
        → stamp_before (slice_index_or (merged lists) (k + 1) d) (slice_index_or (merged lists) k d) ≡ false }
{}

/// Three lists with equal stamps.
pub fn worked_order()
    ensures stamps { map (λ key. key.stamp) (merged tied_lists) ≡ 5 ∷ 5 ∷ 5 ∷ 7 ∷ 7 ∷ 7 ∷ 7 ∷ 9 ∷ [] }
    ensures lists { merge_order tied_lists ≡ 0 ∷ 2 ∷ 2 ∷ 0 ∷ 0 ∷ 1 ∷ 2 ∷ 1 ∷ [] }
{}

/// Whatever calls a merger got, and in whatever order stamps were pushed: once all lists are closed and all
/// is taken, the stamps were taken in the order of the merged lists.
pub fn mergers_take_in_merge_order()
    ensures stamps { (lists : List ListState) (past : Merging) → Merges lists past → All IsSpent lists
        → past.taken ≡ merged past.pushed }
    ensures lists { (lists : List ListState) (past : Merging) → Merges lists past → All IsSpent lists
        → map (λ key. key.list) past.taken ≡ merge_order past.pushed }
{}

/// What was taken before that is the front of the merged lists, whatever is going to come.
pub fn taken_stamps_are_settled()
    ensures { (lists : List ListState) (past : Merging) (later : List (List ℕ)) → Merges lists past
        → MergingGoesOn lists past later → (rest : List MergeKey) × (merged later ≡ past.taken ++ rest) }
{}

/// Once something was taken each list that isn't closed has had a stamp, and the last one stands before none
/// that was taken.
pub fn open_lists_stand_behind()
    ensures { (lists : List ListState) (past : Merging) (n : ℕ) → Merges lists past
        → (list_at lists n).closed ≡ false → past.taken ≢ []
        → (0 < length (pushed_to past n))
        × All (λ key. stamp_before (record { stamp = last_or 0 (pushed_to past n); list = n }) key ≡ false) past.taken }
{}

/// Of each list all stamps that were pushed were taken, but for its head.
pub fn only_heads_wait()
    ensures { (lists : List ListState) (past : Merging) (n : ℕ) → Merges lists past
        → length (pushed_to past n)
        ≡ count_by (λ list. list == n) (map (λ key. key.list) past.taken) + length (option_to_list (list_at lists n).head) }
{}

/// The three lists come to a merger, once as it asks for them, and once as they please.
pub fn worked_mergers()
    ensures asked { Runs (replicate 3 fresh_list) asked_run }
    ensures unasked { Runs (replicate 3 fresh_list) unasked_run }
{}
