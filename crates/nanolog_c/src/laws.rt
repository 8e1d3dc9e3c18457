//! Laws over the definitions. The functions do nothing: what they ensure is proved of the definitions.

ghost use Rattle.std.specs.Prelude.{◌≡◌, pos, negsuc};
ghost use Rattle.nanolog_c.specs.declared.answers.TheConstants as answers;

/// The numbers of the answers, as `nanolog.h` names them.
pub fn answers_have_numbers()
    ensures done { answers.DONE ≡ pos 0 }
    ensures log { (answers.FULL ≡ pos 1) × (answers.TOO_LONG ≡ pos 2) × (answers.MISFIT ≡ pos 3)
        × (answers.EARLY ≡ pos 4) × (answers.FINISHED ≡ pos 5) × (answers.WORN_OUT ≡ pos 6) }
    ensures writer { answers.NO_WRITER ≡ pos 1 }
    ensures clock { answers.REACHED ≡ pos 1 }
    ensures part { (answers.ENDING ≡ pos 1) × (answers.LAST_PART ≡ pos 5) }
    ensures text { answers.NO_TEXT ≡ negsuc 4 }
    ensures others { (answers.NO_MEMORY ≡ negsuc 0) × (answers.BAD_DICTIONARY ≡ negsuc 1)
        × (answers.OUT_OF_RANGE ≡ negsuc 2) × (answers.BAD_HANDLE ≡ negsuc 3) }
    ensures pump { (answers.NOTHING ≡ pos 0) × (answers.AT_END ≡ negsuc 0) × (answers.PART_OVER ≡ negsuc 1)
        × (answers.NO_ROOM ≡ negsuc 2) × (answers.NO_CONSUMER ≡ negsuc 3) }
{}
