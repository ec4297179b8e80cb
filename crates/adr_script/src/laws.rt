//! Laws of the lines of a text.
ghost use Rattle.adr_script.specs.Laws.{LinesHaveNoEnd, TextIsItsLines, OneListOfLinesFits};

/// No line of a text has an LF.
pub fn lines_have_no_end()
    ensures { LinesHaveNoEnd }
{}

/// A text is its lines, each followed by an LF; the last one may lack it, and is then not empty. So a text
/// that ends in LF has no empty line behind it.
pub fn text_is_its_lines()
    ensures { TextIsItsLines }
{}

/// No other lines without an LF are a text, so exactly one list of lines fits it.
pub fn one_list_of_lines_fits()
    ensures { OneListOfLinesFits }
{}
