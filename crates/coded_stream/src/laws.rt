//! Laws of streams. Each function computes nothing: its contract is the law.
ghost use Rattle.std.specs.Prelude.{◌≡◌, ℕ, true, List};
ghost use Rattle.coded_stream.specs.Header.{Header, kind_code};
ghost use Rattle.coded_stream.specs.Blocks.{Block};
ghost use Rattle.coded_stream.specs.Opening.{is_wanted};
ghost use Rattle.coded_stream.specs.Text.{stream_text};
ghost use Rattle.coded_stream.specs.Stream.{stream_of, accepted, IsStream, AreBytes};
ghost use Rattle.coded_stream.specs.declared.kind.Want.{Want};

/// The text of an accepted header of a wanted kind and of at most 4,096 accepted blocks is read as
/// this header and these blocks.
pub fn texts_are_accepted()
    ensures { (want : Want) (h : Header) (blocks : List Block) →
        is_wanted want (kind_code h.kind) ≡ true → IsStream h blocks →
        stream_of want (stream_text h blocks) ≡ accepted h blocks }
{}

/// Nothing else is accepted: an input of bytes that is read as a header and blocks is their text,
/// and they are accepted ones.
pub fn only_texts_are_accepted()
    ensures text { (want : Want) (input : List ℕ) (h : Header) (blocks : List Block) →
        AreBytes input → stream_of want input ≡ accepted h blocks → input ≡ stream_text h blocks }
    ensures stream { (want : Want) (input : List ℕ) (h : Header) (blocks : List Block) →
        AreBytes input → stream_of want input ≡ accepted h blocks → IsStream h blocks }
    ensures want { (want : Want) (input : List ℕ) (h : Header) (blocks : List Block) →
        AreBytes input → stream_of want input ≡ accepted h blocks →
        is_wanted want (kind_code h.kind) ≡ true }
{}

/// A text encodes one header and one list of blocks.
pub fn texts_say_one_stream()
    ensures header { (h i : Header) (a b : List Block) → IsStream h a → IsStream i b →
        stream_text h a ≡ stream_text i b → h ≡ i }
    ensures blocks { (h i : Header) (a b : List Block) → IsStream h a → IsStream i b →
        stream_text h a ≡ stream_text i b → a ≡ b }
{}
