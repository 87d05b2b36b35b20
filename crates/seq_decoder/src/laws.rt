//! Laws of the definitions, as contracts of functions that do nothing.

ghost use Rattle.std.specs.Prelude.{◌≡◌, List, ℕ, Ok};
ghost use Rattle.vp9_types.specs.declared.job.Span.{Span};
ghost use Rattle.frame_headers.specs.declared.header.FrameHead.TheVariants as head;
ghost use Rattle.frame_headers.specs.declared.header.Header.{Header};
ghost use Rattle.frame_headers.specs.Header.{head_of};
ghost use Rattle.frame_headers.specs.HeaderState.{next_persist, start_persist};
ghost use Rattle.frame_output.specs.declared.rendering.Format.TheVariants.{Md5, Raw};
ghost use Rattle.seq_decoder.specs.After.{Stepped, step};
ghost use Rattle.seq_decoder.specs.Outputs.{output_of};
ghost use Rattle.seq_decoder.specs.Runs.{digest_text, picture_text, run_of, texts_of};
ghost use Rattle.seq_decoder.specs.DecoderState.{State, persist_of, start_state};

/// What headers read of the state is what the listing's definition passes on: before the first frame, after each coded one,
/// and after a slot that is shown.
pub fn headers_read_what_persists()
    ensures start { persist_of start_state ≡ start_persist }
    ensures coded { (number : ℕ) (state : State) (bytes : List ℕ) (header : Header) (compressed : Span) (next : Stepped)
        → head_of (persist_of state) bytes ≡ Ok (head.Coded header compressed) → step number state bytes ≡ Ok next
        → persist_of next.state ≡ next_persist header (persist_of state) }
    ensures shown { (number : ℕ) (state : State) (bytes : List ℕ) (slot : ℕ) (next : Stepped)
        → head_of (persist_of state) bytes ≡ Ok (head.ShowExisting slot) → step number state bytes ≡ Ok next
        → next.state ≡ state }
{}

/// What is written raw is the frames that the run shows, one after another; and what is written as digests is those of each
/// of them, each as it would be alone.
pub fn output_is_the_run()
    ensures raw { (bytes : List ℕ) → output_of Raw bytes ≡ texts_of picture_text (run_of bytes) }
    ensures digests { (bytes : List ℕ) → output_of Md5 bytes ≡ texts_of digest_text (run_of bytes) }
{}
