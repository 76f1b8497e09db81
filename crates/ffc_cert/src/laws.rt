//! What holds of the text of certificates, from its definitions alone.
ghost use Rattle.ffc_cert.specs.Laws.{IsWritten, ReadsBack, ReadsBackFirst, ReadsItsText, ReadsNoOther, AcceptsTexts};
ghost use Rattle.ffc_cert.specs.FirstFault.{FaultsAreFirst, LinesDecide};
ghost use Rattle.ffc_cert.specs.LineItems.{LinesAreItems, ValuesAreItems, FirstLinesAreItems};
ghost use Rattle.ffc_cert.specs.Laws.{LinesAreInside, BeginsNoOther, GoesOn, ReadsOldVersions};

/// An entry that is well formed may be written, as the writer and its measure of length require.
pub fn is_written()
    ensures { IsWritten }
{}

/// The text of entries that are well formed and not too long is read back, with the number and the first line of each. They
/// are the first entries too where the text goes on.
pub fn reads_back()
    ensures all { ReadsBack }
    ensures first { ReadsBackFirst }
{}

/// In one version no text of an entry that is well formed is a proper prefix of another's.
pub fn begins_no_other()
    ensures { BeginsNoOther }
{}

/// What is read is its own text: where a text names a version, it is the one text of its entries, and then more, and the
/// entries are numbered from 1 with their first lines. A text that names none has no entry.
pub fn reads_its_text()
    ensures named { ReadsItsText }
    ensures unnamed { ReadsNoOther }
{}

/// The texts without a fault are those of as many entries as are wanted, each well formed and not too long.
pub fn accepts_texts()
    ensures { AcceptsTexts }
{}

/// Where a text does not begin with line 1 of version 3, it is read the same whether version 3 is read or not.
pub fn reads_old_versions()
    ensures { ReadsOldVersions }
{}

/// Each entry begins at a line of the text.
pub fn lines_are_inside()
    ensures { LinesAreInside }
{}

/// The entries of a text are the first ones of each longer text, and a fault stays the fault.
pub fn reading_goes_on()
    ensures { GoesOn }
{}

/// A text's fault is that of its first line at fault. The lines before that one are line 1, entries, and a part of one more
/// that some well-formed entry goes on from. With the line no well-formed entry does, or the entry is too long; or the line
/// is not ended, or stands after the last entry. Where none does, the code is that of the first item at fault: with the items
/// before it a line that may come there can begin, and with it none.
pub fn faults_are_first()
    ensures first { FaultsAreFirst }
    // Whatever follows its line, the fault is the same.
    ensures decided { LinesDecide }
{}

/// A line is its items, each after a space, and it is in range exactly where each of them may stand in its place: so items
/// say what the text of lines and their ranges say.
pub fn lines_are_items()
    ensures lines { LinesAreItems }
    ensures values { ValuesAreItems }
    ensures first { FirstLinesAreItems }
{}
