//! Laws of compact JSON texts.

ghost use Rattle.laws_of_json.specs.Laws.{ReadsBack, IsWrittenInUtf8};

/// The compact text of a plain value that nests at most 127 deep is read back as that value.
pub fn a_compact_text_reads_back()
    ensures { ReadsBack }
{}

/// The compact text of a plain value is UTF-8 where its texts and names are.
pub fn a_compact_text_is_utf8()
    ensures { IsWrittenInUtf8 }
{}
