// Laws of shown text. The functions do nothing.
ghost use Rattle.cxl_view.specs.Laws.{CountsAddUp, FrontsGoOn};

/// The front of a shown trace goes on by one line for each name, then each opening, then each event, whose number is that of the
/// events before it (own rule).
pub fn fronts_go_on()
    ensures { FrontsGoOn }
{}

/// Each line stands once among those counted, and over all lines the counts are those of the operations that begin on them, kind
/// by kind (own rule).
pub fn counts_add_up()
    ensures { CountsAddUp }
{}
