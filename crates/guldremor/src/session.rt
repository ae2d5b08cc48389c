// What a script has set up so far: a field, an editor over it, and the buffers that are lent to the editor's calls.
ghost use Rattle.std.specs.Prelude.{◌≡◌, ◌-◌, ◌%◌, ◌≤◌, take, Ok, MatchResult, IfOk, OnOk};
ghost use Rattle.array.specs.Buffers.{cell_at};
ghost use Rattle.array.specs.Cells.{normal};
ghost use Rattle.code.specs.Checks.{Checked, PassesAll};
ghost use Rattle.coder.specs.Forms.{dimension};
ghost use Rattle.field.specs.AnyField.{meaning_of};
ghost use Rattle.guldremor.specs.Sessions.{field_of, shape_of, lent_of};

use super::answer::{SizeLine, Trouble};
use super::lent::Lent;
use array::{BLOCK_SYMBOLS, CELLS, Cell, CellRow, Shape, Term};
use blocks::build_forms;
use code::Verdict;
use editor::{Editor, Parameters};
use field::{AnyField, Field, Symbol};
use history::ChangeRecord;
use refusal::Refusal;
use std::alloc::{AllocError, Global};
use survey::survey_size;

// How far a script has come: it chooses a field, then it draws an array over it.
#[derive(Clone, Copy)]
enum Stage {
    Start,
    Chosen(AnyField),
    Drawn(Editor<AnyField>),
}

impl Stage {
    fn field(self) -> Result<AnyField, Trouble<'static>>
        ensures { IfOk result (λ f. field_of self ≡ Some f) }
    {
        match self {
            Stage::Start => Err(Trouble::Line("no field is chosen yet")),
            Stage::Chosen(field) => Ok(field),
            Stage::Drawn(editor) => Ok(*editor.field()),
        }
    }

    fn editor(self) -> Result<Editor<AnyField>, Trouble<'static>>
        ensures { IfOk result (λ e. self ≡ Stage.Drawn e) }
    {
        match self {
            Stage::Start => Err(Trouble::Line("no field is chosen yet")),
            Stage::Chosen(_) => Err(Trouble::Line("no array is drawn yet")),
            Stage::Drawn(editor) => Ok(editor),
        }
    }
}

#[derive(Drop)]
pub struct Session {
    heap: Global,
    stage: Stage,
    cells: Lent<CellRow>,
    blocks: Lent<Symbol>,
    records: Lent<ChangeRecord>,
    out: Lent<Symbol>,
    work: Lent<Symbol>,
    // the blocks of the sizes that `sizes` looks at
    spare: Vec<Symbol>,
}

// How many cells, block symbols and records the session holds, and how many symbols of each other buffer.
const HELD_CELLS: usize = 1024;

const HELD_BLOCKS: usize = 32768;

const HELD_RECORDS: usize = 4096;

const WORD: usize = BLOCK_SYMBOLS;

impl Session {
    pub fn new(heap: Global) -> Result<Self, AllocError> {
        Ok(Session {
            heap,
            stage: Stage::Start,
            cells: Lent::new(heap, CellRow::default(), HELD_CELLS, CELLS)?,
            blocks: Lent::new(heap, 0, HELD_BLOCKS, BLOCK_SYMBOLS)?,
            records: Lent::new(heap, ChangeRecord::default(), HELD_RECORDS, 1024)?,
            out: Lent::new(heap, 0, WORD, WORD)?,
            work: Lent::new(heap, 0, WORD, WORD)?,
            spare: vec![in heap; 0; WORD]?,
        })
    }

    pub fn heap(&self) -> Global
        ensures { result ≡ self.now.heap }
    {
        self.heap
    }

    // Takes a field, and forgets the array that was drawn over the one before.
    pub fn choose(&mut self, field: AnyField) -> u16
        ensures order { result ≡ (meaning_of field).q }
        ensures chosen { self.new.stage ≡ Stage.Chosen field }
    {
        self.stage = Stage::Chosen(field);
        field.order()
    }

    // Sets how long the buffers of cells, block symbols and records are that the next calls are lent.
    pub fn lend(
        &mut self,
        cells: usize,
        blocks: usize,
        records: usize,
    ) -> Result<(), Trouble<'static>>
        ensures { let was = lent_of self.old in
            let new = lent_of self.new in
            MatchResult result
            (λ _. (cells ≤ 1024) × (blocks ≤ 32768) × (records ≤ 4096)
            × (new ≡ record { cells = cells; blocks = blocks; records = records; out = was.out; work = was.work }))
            (λ _. ((cells ≤ 1024) × (blocks ≤ 32768) × (records ≤ 4096) → ⊥) × (new ≡ was)) }
    {
        if cells > HELD_CELLS || blocks > HELD_BLOCKS || records > HELD_RECORDS {
            return Err(Trouble::Line(
                "there are 1024 cells, 32768 block symbols and 4096 records to lend",
            ));
        }
        self.cells.lend(cells);
        self.blocks.lend(blocks);
        self.records.lend(records);
        Ok(())
    }

    // Sets how long the buffers for answers and for working are that encode and recover are lent.
    pub fn lend_room(&mut self, out: usize, work: usize) -> Result<(), Trouble<'static>>
        ensures { let was = lent_of self.old in
            let new = lent_of self.new in
            MatchResult result
            (λ _. (out ≤ 16384) × (work ≤ 16384)
            × (new ≡ record { cells = was.cells; blocks = was.blocks; records = was.records; out = out; work = work }))
            (λ _. ((out ≤ 16384) × (work ≤ 16384) → ⊥) × (new ≡ was)) }
    {
        if out > WORD || work > WORD {
            return Err(Trouble::Line("there are 16384 symbols of each to lend"));
        }
        self.out.lend(out);
        self.work.lend(work);
        Ok(())
    }

    // An array of empty cells. A refusal keeps the array that there was.
    pub fn start(
        &mut self,
        size: usize,
        rows: usize,
        columns: usize,
    ) -> Result<(), Trouble<'static>>
        ensures { field_of self.new.stage ≡ field_of self.old.stage }
    {
        let field = self.stage.field()?;
        self.stage = Stage::Drawn(Editor::new(
            field,
            size,
            rows,
            columns,
            self.cells.first_mut(),
            self.blocks.first_mut(),
            self.records.first(),
        )?);
        Ok(())
    }

    // The changes are a step of the editor each, between the same two lines: a closure for the step would have to be given, and to
    // say, all that the step is lent. That the field stays is a promise of each of them.
    pub fn place(
        &mut self,
        row: usize,
        column: usize,
        terms: &[Term],
    ) -> Result<(), Trouble<'static>>
        ensures { (field_of self.new.stage ≡ field_of self.old.stage) × (shape_of self.new.stage ≡ shape_of self.old.stage) }
    {
        let mut editor = self.stage.editor()?;
        let cell = Cell::try_from(terms)?;
        editor.place(
            self.cells.first_mut(),
            self.blocks.first_mut(),
            self.records.first_mut(),
            row,
            column,
            &cell,
        )?;
        self.stage = Stage::Drawn(editor);
        Ok(())
    }

    pub fn resize(&mut self, size: usize) -> Result<(), Trouble<'static>>
        ensures { field_of self.new.stage ≡ field_of self.old.stage }
    {
        let mut editor = self.stage.editor()?;
        editor.resize(
            self.cells.first(),
            self.blocks.first_mut(),
            self.records.first_mut(),
            size,
        )?;
        self.stage = Stage::Drawn(editor);
        Ok(())
    }

    pub fn undo(&mut self) -> Result<(), Trouble<'static>>
        ensures { field_of self.new.stage ≡ field_of self.old.stage }
    {
        let mut editor = self.stage.editor()?;
        editor.undo(
            self.cells.first_mut(),
            self.blocks.first_mut(),
            self.records.first(),
        )?;
        self.stage = Stage::Drawn(editor);
        Ok(())
    }

    pub fn redo(&mut self) -> Result<(), Trouble<'static>>
        ensures { field_of self.new.stage ≡ field_of self.old.stage }
    {
        let mut editor = self.stage.editor()?;
        editor.redo(
            self.cells.first_mut(),
            self.blocks.first_mut(),
            self.records.first(),
        )?;
        self.stage = Stage::Drawn(editor);
        Ok(())
    }

    pub fn show(&self, row: usize, column: usize) -> Result<CellRow, Trouble<'static>>
        ensures { let d = self.now in
            IfOk result (λ c. (s : Shape) × (shape_of d.stage ≡ Some s)
            × (c ≡ normal (cell_at s.columns d.cells.items.items row column))) }
    {
        let mut cell = Cell::empty();
        self.stage
            .editor()?
            .show(self.cells.first(), row, column, &mut cell)?;
        Ok(cell.row())
    }

    // The circulant size, the rows and columns of the array, and the dimension.
    pub fn parameters(&self) -> Result<Parameters, Trouble<'static>>
        ensures { let d = self.now in
            IfOk result (λ p. (s : Shape) × (shape_of d.stage ≡ Some s)
            × (p.size ≡ s.size) × (p.rows ≡ s.rows) × (p.columns ≡ s.columns)
            × (p.dimension ≡ dimension s.rows s.columns s.size (take d.blocks.length d.blocks.items.items))) }
    {
        Ok(self.stage.editor()?.size(self.blocks.first())?)
    }

    pub fn check(&self, word: &[Symbol]) -> Result<Verdict, Trouble<'static>>
        ensures { let d = self.now in
            IfOk result (λ v. (f : AnyField) × (s : Shape) × (field_of d.stage ≡ Some f) × (shape_of d.stage ≡ Some s)
            × Checked (meaning_of f) s.size s.rows s.columns d.cells.items.items word.now (Ok v)) }
    {
        Ok(self.stage.editor()?.check(self.cells.first(), word)?)
    }

    // The word of a message: it passes every parity check of the array that is drawn.
    pub fn encode(&mut self, message: &[Symbol]) -> Result<Vec<Symbol>, Trouble<'static>>
        ensures { let d = self.old in
            IfOk result (λ word. (f : AnyField) × (s : Shape) × (field_of d.stage ≡ Some f) × (shape_of d.stage ≡ Some s)
            × (((meaning_of f).q - 1) % s.size ≡ 0 →
            PassesAll (meaning_of f) s.size s.rows s.columns d.cells.items.items word.items)) }
    {
        let editor = self.stage.editor()?;
        let shape = editor.history().shape();
        let out = self.out.first_mut();
        let work = self.work.first_mut();
        send(
            editor.field(),
            &shape,
            self.cells.all(),
            self.blocks.first_mut(),
            message,
            out,
            work,
        )?;
        Ok(copied(self.heap, out, shape.columns() * shape.size())?)
    }

    pub fn recover(&mut self, word: &[Symbol]) -> Result<Vec<Symbol>, Trouble<'static>> {
        let editor = self.stage.editor()?;
        let out = self.out.first_mut();
        let length = editor.recover(
            self.cells.first(),
            self.blocks.first(),
            word,
            out,
            self.work.first_mut(),
        )?;
        Ok(copied(self.heap, out, length)?)
    }

    // What the drawing gives at each size that the field and the number of cells allow.
    pub fn sizes(&mut self) -> Result<Vec<SizeLine>, Trouble<'static>> {
        let editor = self.stage.editor()?;
        let shape = editor.history().shape();
        let spare = self.spare.as_mut_slice();
        let mut lines = Vec::new(self.heap);
        for size in 1..512usize {
            match survey_size(
                editor.field(),
                size,
                shape.rows(),
                shape.columns(),
                self.cells.first(),
                spare,
            ) {
                Ok(survey) => lines.push(SizeLine { size, survey })?,
                Err(Refusal::Size | Refusal::Shape) => (),
                Err(refusal) => return Err(Trouble::Refused(refusal)),
            }
        }
        Ok(lines)
    }
}

// The forms are built anew from the cells for each word: nothing of an earlier array can be left in them.
fn send<F: Field>(
    f: &F,
    shape: &Shape,
    cells: &[CellRow],
    blocks: &mut [Symbol],
    message: &[Symbol],
    out: &mut [Symbol],
    work: &mut [Symbol],
) -> Result<(), Refusal>
    ensures { let s = shape.now in
        let m = F.Field.meaning f.now in
        OnOk result ((m.q - 1) % s.size ≡ 0 → PassesAll m s.size s.rows s.columns cells.now out.new) }
{
    build_forms(f, shape, cells, blocks)?;
    coder::encode(f, shape, blocks, message, out, work)
}

// The first `n` symbols, or all where there are fewer, in a list of their own.
fn copied(heap: Global, symbols: &[Symbol], n: usize) -> Result<Vec<Symbol>, AllocError>
    ensures { IfOk result (λ list. list.items ≡ take n symbols.now) }
{
    let mut list = Vec::new(heap);
    list.extend_from_slice(&symbols[..n.min(symbols.len())])?;
    Ok(list)
}
