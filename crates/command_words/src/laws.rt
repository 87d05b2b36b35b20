//! Laws of the definitions, as contracts of functions that do nothing.

ghost use Rattle.std.specs.Prelude.{◌≡◌, ◌∷◌, [], List, ℕ, Some, None, codes, false, true};
ghost use Rattle.command_words.specs.Words.{command_of, decode_by, make_of, trial_of};

use crate::Command;
use frame_output::Format;

/// The definition at words that are written out, whatever the program is called.
pub fn worked_rows()
    ensures list { (name : List ℕ) → command_of (name ∷ codes "list" ∷ []) ≡ Some Command.List }
    ensures nothing { command_of [] ≡ None }
    ensures no_word { (name : List ℕ) → command_of (name ∷ []) ≡ None }
    ensures a_word_more { (name : List ℕ) → command_of (name ∷ codes "list" ∷ codes "x" ∷ []) ≡ None }
    ensures twice { (name : List ℕ) → command_of (name ∷ codes "list" ∷ codes "list" ∷ []) ≡ None }
    ensures unknown_word { (name : List ℕ) → command_of (name ∷ codes "lst" ∷ []) ≡ None }
    ensures empty_word { (name : List ℕ) → command_of (name ∷ [] ∷ []) ≡ None }
    ensures help { (name : List ℕ) → command_of (name ∷ codes "--help" ∷ []) ≡ None }
    ensures short_help { (name : List ℕ) → command_of (name ∷ codes "-h" ∷ []) ≡ None }
    ensures help_word { (name : List ℕ) → command_of (name ∷ codes "help" ∷ codes "list" ∷ []) ≡ None }
    ensures help_of_list { (name : List ℕ) → command_of (name ∷ codes "list" ∷ codes "--help" ∷ []) ≡ None }
    ensures version { (name : List ℕ) → command_of (name ∷ codes "--version" ∷ []) ≡ None }
    ensures an_option { (name : List ℕ) → command_of (name ∷ codes "list" ∷ codes "--plain" ∷ []) ≡ None }
    ensures after_dashes { (name : List ℕ) → command_of (name ∷ codes "--" ∷ codes "list" ∷ []) ≡ None }
    ensures before_dashes { (name : List ℕ) → command_of (name ∷ codes "list" ∷ codes "--" ∷ []) ≡ Some Command.List }
    ensures decode { (name : List ℕ) → command_of (name ∷ codes "decode" ∷ []) ≡ decode_by false 4 4 Format.Raw }
    ensures plain { (name : List ℕ) → command_of (name ∷ codes "decode" ∷ codes "--plain" ∷ []) ≡ decode_by true 4 4 Format.Raw }
    ensures workers { (name : List ℕ) → command_of (name ∷ codes "decode" ∷ codes "--workers" ∷ codes "64" ∷ []) ≡ decode_by false 64 4 Format.Raw }
    ensures one_worker { (name : List ℕ) → command_of (name ∷ codes "decode" ∷ codes "--workers=1" ∷ []) ≡ decode_by false 1 4 Format.Raw }
    ensures window { (name : List ℕ) → command_of (name ∷ codes "decode" ∷ codes "--window" ∷ codes "16" ∷ []) ≡ decode_by false 4 16 Format.Raw }
    ensures least_window { (name : List ℕ) → command_of (name ∷ codes "decode" ∷ codes "--window=2" ∷ []) ≡ decode_by false 4 2 Format.Raw }
    ensures all_options { (name : List ℕ) → command_of (name ∷ codes "decode" ∷ codes "--window=3" ∷ codes "--plain" ∷ codes "--workers" ∷ codes "12" ∷ []) ≡ decode_by true 12 3 Format.Raw }
    ensures raw { (name : List ℕ) → command_of (name ∷ codes "decode" ∷ codes "--format" ∷ codes "raw" ∷ []) ≡ decode_by false 4 4 Format.Raw }
    ensures md5 { (name : List ℕ) → command_of (name ∷ codes "decode" ∷ codes "--format" ∷ codes "md5" ∷ []) ≡ decode_by false 4 4 Format.Md5 }
    ensures y4m { (name : List ℕ) → command_of (name ∷ codes "decode" ∷ codes "--format=y4m" ∷ []) ≡ decode_by false 4 4 Format.Y4m }
    ensures format_and_plain { (name : List ℕ) → command_of (name ∷ codes "decode" ∷ codes "--format=md5" ∷ codes "--plain" ∷ []) ≡ decode_by true 4 4 Format.Md5 }
    ensures unknown_format { (name : List ℕ) → command_of (name ∷ codes "decode" ∷ codes "--format" ∷ codes "i420" ∷ []) ≡ None }
    ensures upper_case_format { (name : List ℕ) → command_of (name ∷ codes "decode" ∷ codes "--format" ∷ codes "MD5" ∷ []) ≡ None }
    ensures front_of_a_format { (name : List ℕ) → command_of (name ∷ codes "decode" ∷ codes "--format" ∷ codes "y4" ∷ []) ≡ None }
    ensures twice_format { (name : List ℕ) → command_of (name ∷ codes "decode" ∷ codes "--format=md5" ∷ codes "--format=md5" ∷ []) ≡ None }
    ensures format_without_value { (name : List ℕ) → command_of (name ∷ codes "decode" ∷ codes "--format" ∷ []) ≡ None }
    ensures empty_format { (name : List ℕ) → command_of (name ∷ codes "decode" ∷ codes "--format=" ∷ []) ≡ None }
    ensures no_workers { (name : List ℕ) → command_of (name ∷ codes "decode" ∷ codes "--workers" ∷ codes "0" ∷ []) ≡ None }
    ensures many_workers { (name : List ℕ) → command_of (name ∷ codes "decode" ∷ codes "--workers" ∷ codes "65" ∷ []) ≡ None }
    ensures small_window { (name : List ℕ) → command_of (name ∷ codes "decode" ∷ codes "--window" ∷ codes "1" ∷ []) ≡ None }
    ensures large_window { (name : List ℕ) → command_of (name ∷ codes "decode" ∷ codes "--window" ∷ codes "17" ∷ []) ≡ None }
    ensures without_value { (name : List ℕ) → command_of (name ∷ codes "decode" ∷ codes "--workers" ∷ []) ≡ None }
    ensures no_number { (name : List ℕ) → command_of (name ∷ codes "decode" ∷ codes "--workers" ∷ codes "four" ∷ []) ≡ None }
    ensures twice_plain { (name : List ℕ) → command_of (name ∷ codes "decode" ∷ codes "--plain" ∷ codes "--plain" ∷ []) ≡ None }
    ensures plain_with_value { (name : List ℕ) → command_of (name ∷ codes "decode" ∷ codes "--plain=true" ∷ []) ≡ None }
    ensures twice_workers { (name : List ℕ) → command_of (name ∷ codes "decode" ∷ codes "--workers=2" ∷ codes "--workers=2" ∷ []) ≡ None }
    ensures a_file { (name : List ℕ) → command_of (name ∷ codes "decode" ∷ codes "x" ∷ []) ≡ None }
    ensures option_before { (name : List ℕ) → command_of (name ∷ codes "--plain" ∷ codes "decode" ∷ []) ≡ None }
    ensures help_of_decode { (name : List ℕ) → command_of (name ∷ codes "decode" ∷ codes "--help" ∷ []) ≡ None }
    ensures make { (name : List ℕ) → command_of (name ∷ codes "make" ∷ codes "7" ∷ codes "40" ∷ []) ≡ make_of 7 40 }
    ensures greatest_make { (name : List ℕ) → command_of (name ∷ codes "make" ∷ codes "4294967295" ∷ codes "1000" ∷ []) ≡ make_of 4294967295 1000 }
    ensures make_with_plus { (name : List ℕ) → command_of (name ∷ codes "make" ∷ codes "+0" ∷ codes "1" ∷ []) ≡ make_of 0 1 }
    ensures large_number { (name : List ℕ) → command_of (name ∷ codes "make" ∷ codes "4294967296" ∷ codes "1" ∷ []) ≡ None }
    ensures no_frames { (name : List ℕ) → command_of (name ∷ codes "make" ∷ codes "7" ∷ codes "0" ∷ []) ≡ None }
    ensures many_frames { (name : List ℕ) → command_of (name ∷ codes "make" ∷ codes "7" ∷ codes "1001" ∷ []) ≡ None }
    ensures number_alone { (name : List ℕ) → command_of (name ∷ codes "make" ∷ codes "7" ∷ []) ≡ None }
    ensures make_alone { (name : List ℕ) → command_of (name ∷ codes "make" ∷ []) ≡ None }
    ensures three_numbers { (name : List ℕ) → command_of (name ∷ codes "make" ∷ codes "7" ∷ codes "1" ∷ codes "1" ∷ []) ≡ None }
    ensures less_than_0 { (name : List ℕ) → command_of (name ∷ codes "make" ∷ codes "-1" ∷ codes "1" ∷ []) ≡ None }
    ensures make_no_number { (name : List ℕ) → command_of (name ∷ codes "make" ∷ codes "x" ∷ codes "1" ∷ []) ≡ None }
    ensures trial { (name : List ℕ) → command_of (name ∷ codes "trial" ∷ codes "7" ∷ codes "40" ∷ []) ≡ trial_of 7 40 }
    ensures greatest_trial { (name : List ℕ) → command_of (name ∷ codes "trial" ∷ codes "4294967295" ∷ codes "1000" ∷ []) ≡ trial_of 4294967295 1000 }
    ensures trial_without_frames { (name : List ℕ) → command_of (name ∷ codes "trial" ∷ codes "7" ∷ codes "0" ∷ []) ≡ None }
    ensures trial_of_many_frames { (name : List ℕ) → command_of (name ∷ codes "trial" ∷ codes "7" ∷ codes "1001" ∷ []) ≡ None }
    ensures number_alone_of_a_trial { (name : List ℕ) → command_of (name ∷ codes "trial" ∷ codes "7" ∷ []) ≡ None }
    ensures trial_alone { (name : List ℕ) → command_of (name ∷ codes "trial" ∷ []) ≡ None }
{}
