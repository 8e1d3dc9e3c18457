//! The limits and what is usual, as numbers. The functions do nothing: what they ensure is proved of the definitions.

ghost use Rattle.std.specs.Prelude.{◌≡◌, ℕ, true, false};
ghost use Rattle.log_dictionary.specs.declared.severity.Severity.TheVariants.{Debug};
ghost use Rattle.session_options.specs.declared.limits.TheConstants.{MAX_SESSION_WORDS, MAX_GENERATED_WRITERS};
ghost use Rattle.session_options.specs.declared.limits.TheConstants.{MIN_RING, MAX_RING, MAX_BATCH, MAX_GENERATED};
ghost use Rattle.session_options.specs.declared.options.Policy.TheVariants.{Wait};
ghost use Rattle.session_options.specs.declared.version.TheConstants.{MAX_WRITERS};
ghost use Rattle.session_options.specs.Defaults.{default_options};
ghost use Rattle.session_options.specs.Versions.{is_known, has_clocks, most_writers};

/// A generated trace has at most 64 writers and 1,000,000 calls, a ring 1,024 to 1,048,576 words, all rings of a session
/// 67,108,864 words, and a batch at most 65,536 records.
pub fn limits_have_these_numbers()
    ensures session { MAX_SESSION_WORDS ≡ 67108864 }
    ensures generated_trace { MAX_GENERATED_WRITERS ≡ 64 }
    ensures least_ring { MIN_RING ≡ 1024 }
    ensures most_ring { MAX_RING ≡ 1048576 }
    ensures batch { MAX_BATCH ≡ 65536 }
    ensures generated { MAX_GENERATED ≡ 1000000 }
{}

/// Where nothing else is asked for, a ring has 65,536 words, an extent at most 4,096 records, a full ring is waited for,
/// and no call is left out for its severity.
pub fn defaults_have_these_values()
    ensures ring { default_options.ring ≡ 65536 }
    ensures batch { default_options.batch ≡ 4096 }
    ensures policy { default_options.policy ≡ Wait }
    ensures level { default_options.level ≡ Debug }
{}

/// There are two versions. A run of version 1 has at most 64 writers and one clock; one of version 2 has at most 1,024
/// writers, and may have more clocks.
pub fn versions_have_these_numbers()
    ensures known { (is_known 1 ≡ true) × (is_known 2 ≡ true) }
    ensures unknown { (is_known 0 ≡ false) × (is_known 3 ≡ false) }
    ensures clocks { (has_clocks 1 ≡ false) × (has_clocks 2 ≡ true) }
    ensures writers_of_1 { most_writers 1 ≡ 64 }
    ensures writers_of_2 { most_writers 2 ≡ 1024 }
    ensures most { MAX_WRITERS ≡ 1024 }
{}
