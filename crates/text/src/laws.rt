//! Laws of the texts. A function here does nothing: its contract is the law.
ghost use Rattle.text.specs.Laws.{AtMost6936};

/// A well-formed text of `drawlist` has at most 6,936 bytes (docs/RULES.md, 'Text of drawlist').
pub fn longest_text()
    ensures { AtMost6936 }
{}
