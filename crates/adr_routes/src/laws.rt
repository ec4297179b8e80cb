//! Laws of the served paths.
ghost use Rattle.adr_routes.specs.Laws.{EveryPathIsFound, NoOtherTextIsFound};

/// Each path is found under the text that it is written as: the text of its kind, with its ids where that has braces.
pub fn every_path_is_found()
    ensures { EveryPathIsFound }
{}

/// No other text is found: where a path is found, the text is as that path is written, and its ids are object ids.
pub fn no_other_text_is_found()
    ensures { NoOtherTextIsFound }
{}
