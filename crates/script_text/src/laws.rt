// Laws of texts and the scripts that they spell. The functions do nothing.
ghost use Rattle.script_text.specs.Failures.{FailuresAreAlone, FailuresAreNoScripts};
ghost use Rattle.script_text.specs.Laws.{TextsSpellOneScript};

/// A text is spelled by one script at most (own rule).
pub fn texts_spell_one_script()
    ensures one { TextsSpellOneScript }
{}

/// A text fails at one line at most, and there for one reason: the first line that fails, and the first of its reasons, are what
/// the text is refused for. A text that fails is spelled by no script (own rule).
pub fn failures_are_alone()
    ensures alone { FailuresAreAlone }
    ensures no_script { FailuresAreNoScripts }
{}
