//! Laws of answers. Each function does nothing: its contract is the law.
ghost use Rattle.plan_names.specs.wider.texts.Laws.{SentenceSaysOff};

/// States that an answer says that the feature is off with all widenings together, if its last line says that no choice turns it on. No
/// name, message or line of steps can look like that line.
pub fn sentence_says_off()
    ensures { SentenceSaysOff }
{}
