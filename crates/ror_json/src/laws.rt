//! Laws of the definitions, each the clause of a function that does nothing.

ghost use Rattle.ror_json.specs.Laws.{FormsAreRead, FormsAreOfOneReport, BadShapesAreGiven, BadShapesAreNoForms, PrintedBlocksAreFormed};
ghost use Rattle.ror_json.specs.Laws.{FormsHoldNoFloat, FormsNestNineDeep, TextsOfFormsAreRead, FormsHaveFewBlocks, BadShapesAreNear};
ghost use Rattle.ror_json.specs.Laws.{TextsAreRead, BadJsonIsGiven, BadShapesOfTextsAreGiven, TextsAreOfOneReport, WrittenTextsAreReports};

/// A value is read as these blocks exactly where it is their form: what was written is read again, and what is read was so
/// written. What has a text in a report has a form.
pub fn forms_are_read()
    ensures read { FormsAreRead }
    ensures printed { PrintedBlocksAreFormed }
{}

/// A value is the form of one list of blocks at most.
pub fn one_value()
    ensures { FormsAreOfOneReport }
{}

/// `BadShape` is given exactly with the first bad block, and there is one exactly where the value is the form of no list of
/// blocks.
pub fn bad_shapes_are_given()
    ensures given { BadShapesAreGiven }
    ensures no_form { BadShapesAreNoForms }
{}

/// The compact text of a form, which `to_string` gives since a form holds no float, is read as that form. A text that is read
/// as a report has at least as many bytes as the report has blocks, or as the number of the first bad block.
pub fn texts_are_read()
    ensures no_float { FormsHoldNoFloat }
    ensures nine_deep { FormsNestNineDeep }
    ensures read { TextsOfFormsAreRead }
    ensures few { FormsHaveFewBlocks }
    ensures near { BadShapesAreNear }
{}

/// Bytes are read as these blocks exactly where they are JSON of their form, which they are of one list of blocks at most. They
/// are refused as no JSON exactly where they are JSON of no value, and else with the first bad block of that value.
pub fn bytes_are_read()
    ensures read { TextsAreRead }
    ensures no_json { BadJsonIsGiven }
    ensures bad_shape { BadShapesOfTextsAreGiven }
    ensures one { TextsAreOfOneReport }
{}

/// The text that is written of blocks that have a form is read as these blocks, and so it is with a line feed behind it.
pub fn written_is_read()
    ensures { WrittenTextsAreReports }
{}
