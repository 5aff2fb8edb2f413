// The table of eight rows (document 01, "A round"): what a round does with the public block and with the
// hidden blocks of its slot, as a constant that is looked up by three answers.
#![tactic(auto)]

ghost use Rattle.std.specs.Prelude.{◌≡◌, ◌<◌};
ghost use Rattle.model.specs.Table.{row_index, row_at};
ghost use Rattle.table.specs.Rows.{table_row_of};

// A public block is kept, or takes the call's data.
#[derive(Clone, Copy, PartialEq, Eq)]
pub enum PublicChoice {
    Keep,
    Write,
}

// The owner's current path is stored, or the path of the waiting hidden write, or random bytes.
#[derive(Clone, Copy)]
pub enum HiddenChoice {
    Keep,
    Place,
    Fill,
}

#[derive(Clone, Copy)]
pub struct Row {
    pub public: PublicChoice,
    pub hidden: HiddenChoice,
}

// ---- rows ----

const WRITE_FILL: Row = Row {
    public: PublicChoice::Write,
    hidden: HiddenChoice::Fill,
};

const WRITE_PLACE: Row = Row {
    public: PublicChoice::Write,
    hidden: HiddenChoice::Place,
};

const WRITE_KEEP: Row = Row {
    public: PublicChoice::Write,
    hidden: HiddenChoice::Keep,
};

const KEEP_FILL: Row = Row {
    public: PublicChoice::Keep,
    hidden: HiddenChoice::Fill,
};

const KEEP_PLACE: Row = Row {
    public: PublicChoice::Keep,
    hidden: HiddenChoice::Place,
};

const KEEP_KEEP: Row = Row {
    public: PublicChoice::Keep,
    hidden: HiddenChoice::Keep,
};

// None waiting, then one waiting; in each free, then allocated; in each not live, then live.
const ROWS: [Row; 8] = [
    WRITE_FILL, // none waiting, free, not live
    WRITE_KEEP, // none waiting, free, live
    KEEP_FILL, // none waiting, allocated, not live
    KEEP_KEEP, // none waiting, allocated, live
    WRITE_PLACE, // one waiting, free, not live
    WRITE_KEEP, // one waiting, free, live
    KEEP_PLACE, // one waiting, allocated, not live
    KEEP_KEEP, // one waiting, allocated, live
];

// ---- look-up ----

// A row's place in the table: each answer that is true counts, 4, 2 and 1.
fn row_index(is_waiting: bool, is_allocated: bool, is_live: bool) -> usize
    ensures { (result ≡ row_index is_waiting is_allocated is_live) × (result < 8) }
{
    4 * usize::from(is_waiting) + 2 * usize::from(is_allocated) + usize::from(is_live)
}

// The row for whether a hidden write waits, the slot is allocated, and the slot is live.
pub fn row_at(is_waiting: bool, is_allocated: bool, is_live: bool) -> Row
    ensures { table_row_of result ≡ row_at is_waiting is_allocated is_live }
{
    let index = row_index(is_waiting, is_allocated, is_live);
    ROWS[index]
}
