//! The core, and the passes that step on it.
ghost use Rattle.std.specs.Prelude.{◌≡◌, ℕ, ◌+◌, ◌%◌, ◌<◌, ◌≤◌, ◌^◌, [], bit_and, bit_or, IfOk};
ghost use Rattle.pd_core.specs.Layout.{IsSound, layout_of, width, row_at, bindings, binding_at, session_at};
ghost use Rattle.pd_core.specs.Words.{operand, reads, adds, sets, leaves};
ghost use Rattle.pd_core.specs.Views.{first_view, halved, newcomer, joined};
ghost use Rattle.pd_core.specs.Kinds.{after, May, Found, load_node, load_binding, draw, clear_bit, set_bit, set_attached, set_disposed, count_answer, load_answers, count_end, load_ends, load_row, set_summary, set_off, clear_off};
ghost use Rattle.pd_core.specs.Steps.{Admits, Told};
ghost use Rattle.pd_core.specs.Runs.{MaySplit, IsLast, EveryRunIsGood, BitsComeBySetBit, ClearBitLeavesNone};

use crate::plays::{Does, Doing, Law, Rows, Seats};
use crate::view::View;
use atomic_table::{Seat, Shared, Table};
use std::alloc::{AllocError, Global};
use std::marker::{Brand, Model};

// The table of words, as all threads share it.
type Words = Shared<u8, View, Rows, Law>;

/// The words that threads share. It owns the one table of them; specs/Layout.antt says where each word lies.
///
/// Each of its calls that take a pass is one operation on one word of the table. It takes no memory, and its contract
/// is the row of its kind of step: the condition on the pass, and what the pass's view is afterwards. A call that gives
/// a number gives the word that it found. Its clause `found` says that the word was found in a state in which the rule
/// held and this view stood.
#[derive(Drop)]
pub struct Core {
    table: Table<u8, View, Rows, Law, Global>,
    nodes: u32,
    sessions: u32,
    contexts: u32,
    rows: usize,
    first_binding: usize,
    first_session: usize,
}

impl Model for Core {
    ghost use Rattle.std.specs.Prelude.{◌≡◌, ◌<◌, ◌+◌, ◌^◌};
    ghost use Rattle.pd_core.specs.Tokens.{Hub};
    ghost use Rattle.pd_core.specs.Layout.{words_in, bindings, front, width, IsSound};

    ghost Value = { Hub };

    ghost view = { λ c. record { id = c.table.shared.table_id; layout = c.table.shared.key } };

    ghost invariant = { λ c. (c.nodes ≡ c.table.shared.key.nodes) × (c.table.shared.table_id.words ≡ words_in c.table.shared.key) × IsSound c.table.shared.key × (c.table.shared.table_id.slots ≡ 0) × (c.first_session ≡ front c.table.shared.key + bindings c.table.shared.key) × (c.sessions ≡ c.table.shared.key.sessions) × (c.first_session < 2 ^ 42) × (c.first_binding ≡ front c.table.shared.key) × (c.rows ≡ width c.table.shared.key) × (c.contexts ≡ c.table.shared.key.contexts) };
}

/// What a thread steps with. Contracts see its table and its view.
#[derive(Drop)]
pub struct Pass {
    seat: Seat<u8, View>,
}

impl Model for Pass {
    ghost use Rattle.std.specs.Prelude.{◌≡◌, ◌<◌, []};
    ghost use Rattle.pd_core.specs.Tokens.{Holder};

    ghost Value = { Holder };

    ghost view = { λ p. record { id = p.seat.table_id; view = p.seat.me.0 } };

    ghost invariant = { λ p. (p.seat.me.1 ≡ []) × (0 < p.seat.me.0.seat_share) };
}

// The operations on a word follow. Each is a step of the kind that `J` names, and gives the word that it found; `a` and
// `b` are the numbers of that kind, which no body reads. In the word of a binding 1 is "attached", 2 is "disposed", 4
// is "off", and its sum is the rest, so that 8 adds one to it.

// Loads the word.
fn read<J: Doing>(words: &Words, seat: &mut Seat<u8, View>, word: usize, a: u32, b: u32) -> u64
    requires { (seat.old.table_id ≡ words.now.table_id) × (word < words.now.table_id.words) × (J.layout ≡ words.now.key) × Admits words.now.key J.kind words.now.table_id.slots seat.old.id seat.old.me word reads }
    ensures { (seat.new.table_id ≡ seat.old.table_id) × Told J.layout J.kind word (operand reads) 0 seat.old.me result seat.new.me }
{
    words.load::<Does<J>>(seat, word)
}

// Adds `k` to the word.
fn add<J: Doing>(
    words: &Words,
    seat: &mut Seat<u8, View>,
    word: usize,
    k: u64,
    a: u32,
    b: u32,
) -> u64
    requires { (seat.old.table_id ≡ words.now.table_id) × (word < words.now.table_id.words) × (J.layout ≡ words.now.key) × Admits words.now.key J.kind words.now.table_id.slots seat.old.id seat.old.me word (adds k) }
    ensures { (seat.new.table_id ≡ seat.old.table_id) × Told J.layout J.kind word (operand (adds k)) 0 seat.old.me result seat.new.me }
{
    words.fetch_add::<Does<J>>(seat, word, k)
}

// Sets the bits of `k` in the word.
fn set<J: Doing>(
    words: &Words,
    seat: &mut Seat<u8, View>,
    word: usize,
    k: u64,
    a: u32,
    b: u32,
) -> u64
    requires { (seat.old.table_id ≡ words.now.table_id) × (word < words.now.table_id.words) × (J.layout ≡ words.now.key) × Admits words.now.key J.kind words.now.table_id.slots seat.old.id seat.old.me word (sets k) }
    ensures { (seat.new.table_id ≡ seat.old.table_id) × Told J.layout J.kind word (operand (sets k)) 0 seat.old.me result seat.new.me }
{
    words.fetch_or::<Does<J>>(seat, word, k)
}

// Leaves of the word only the bits of `k`.
fn leave<J: Doing>(
    words: &Words,
    seat: &mut Seat<u8, View>,
    word: usize,
    k: u64,
    a: u32,
    b: u32,
) -> u64
    requires { (seat.old.table_id ≡ words.now.table_id) × (word < words.now.table_id.words) × (J.layout ≡ words.now.key) × Admits words.now.key J.kind words.now.table_id.slots seat.old.id seat.old.me word (leaves k) }
    ensures { (seat.new.table_id ≡ seat.old.table_id) × Told J.layout J.kind word (operand (leaves k)) 0 seat.old.me result seat.new.me }
{
    words.fetch_and::<Does<J>>(seat, word, k)
}

impl Core {
    // The word `r` of the row words of node `n`.
    fn row_word(&self, n: u32, r: u32) -> usize
        requires { (n < self.now.layout.nodes) × (r < width self.now.layout) }
        ensures { result ≡ row_at self.now.layout n r }
    {
        self.nodes as usize + (n as usize * self.rows + r as usize)
    }

    // The word of a binding.
    fn binding_word(&self, b: u32) -> usize
        requires { b < bindings self.now.layout }
        ensures { result ≡ binding_at self.now.layout b }
    {
        self.first_binding + b as usize
    }

    // The word of a session. That of ended contexts lies after the last.
    fn session_word(&self, s: u32) -> usize
        requires { s ≤ self.now.layout.sessions }
        ensures { result ≡ session_at self.now.layout s }
    {
        self.first_session + s as usize
    }

    /// Loads the summary word of the node `n`, and gives it. The view keeps it, and forgets the row words of the
    /// node loaded before.
    pub fn load_node(&self, p: &mut Pass, n: u32) -> u64
        requires { (p.old.id ≡ self.now.id) × May self.now.layout (load_node n) p.old.view }
        ensures view { p.new ≡ record p.old { view = after self.now.layout (load_node n) result p.old.view } }
        ensures found { Found self.now.layout (load_node n) p.old.view result }
    {
        let table = &self.table;
        let word = n as usize;
        read::<Brand>(&table.shared, &mut p.seat, word, n, 0)
    }

    /// Loads the row word `r` of the node `n`, which was loaded last and whose summary had `r`, and gives it. A
    /// binding of that row word that matches the node, was known as attached and has no bit there is known as
    /// disposed from now on.
    pub fn load_row(&self, p: &mut Pass, n: u32, r: u32) -> u64
        requires { (p.old.id ≡ self.now.id) × May self.now.layout (load_row n r) p.old.view }
        ensures view { p.new ≡ record p.old { view = after self.now.layout (load_row n r) result p.old.view } }
        ensures found { Found self.now.layout (load_row n r) p.old.view result }
    {
        let table = &self.table;
        let word = self.row_word(n, r);
        read::<Brand>(&table.shared, &mut p.seat, word, n, r)
    }

    /// Loads the word of the binding `b`, of which nothing is known, and gives it. Where it is not live, the
    /// view has a sight of the event without a number.
    pub fn load_binding(&self, p: &mut Pass, event: u32, b: u32) -> u64
        requires { (p.old.id ≡ self.now.id) × May self.now.layout (load_binding event b) p.old.view }
        ensures view { p.new ≡ record p.old { view = after self.now.layout (load_binding event b) result p.old.view } }
        ensures found { Found self.now.layout (load_binding event b) p.old.view result }
    {
        let table = &self.table;
        let word = self.binding_word(b);
        read::<Brand>(&table.shared, &mut p.seat, word, event, b)
    }

    /// Draws from the binding `b`, which is known as attached, for the event, and gives the old word. Where that
    /// was live, its sum is the number drawn, which gives an entry unless the word had "off". Spends a draw share.
    pub fn add_draw(&self, p: &mut Pass, event: u32, b: u32) -> u64
        requires { (p.old.id ≡ self.now.id) × May self.now.layout (draw event b) p.old.view }
        ensures view { p.new ≡ record p.old { view = after self.now.layout (draw event b) result p.old.view } }
        ensures found { Found self.now.layout (draw event b) p.old.view result }
    {
        let table = &self.table;
        let word = self.binding_word(b);
        add::<Brand>(&table.shared, &mut p.seat, word, 8, event, b)
    }

    /// Clears the bit of the binding `b`, which is known as disposed, at the node `n`, and gives the old row word.
    pub fn clear_bit(&self, p: &mut Pass, n: u32, b: u32) -> u64
        requires { (p.old.id ≡ self.now.id) × May self.now.layout (clear_bit n b) p.old.view }
        ensures view { p.new ≡ record p.old { view = after self.now.layout (clear_bit n b) result p.old.view } }
        ensures found { Found self.now.layout (clear_bit n b) p.old.view result }
    {
        let table = &self.table;
        let word = self.row_word(n, b / 64);
        leave::<Brand>(&table.shared, &mut p.seat, word, !(1 << (b % 64)), n, b)
    }

    /// Sets the bit of the binding `b` at `n`, the next node of its row, and gives the old row word. The node is
    /// half done then.
    pub fn set_bit(&self, p: &mut Pass, n: u32, b: u32) -> u64
        requires { (p.old.id ≡ self.now.id) × May self.now.layout (set_bit n b) p.old.view }
        ensures view { p.new ≡ record p.old { view = after self.now.layout (set_bit n b) result p.old.view } }
        ensures found { Found self.now.layout (set_bit n b) p.old.view result }
    {
        let table = &self.table;
        let word = self.row_word(n, b / 64);
        set::<Brand>(&table.shared, &mut p.seat, word, 1 << (b % 64), n, b)
    }

    /// Sets the bit of the row word `r` in the summary word of the node `n`, which is half done for a binding of
    /// that row word, and gives the old summary word. The attachment has come past the node then.
    pub fn set_summary(&self, p: &mut Pass, n: u32, r: u32) -> u64
        requires { (p.old.id ≡ self.now.id) × May self.now.layout (set_summary n r) p.old.view }
        ensures view { p.new ≡ record p.old { view = after self.now.layout (set_summary n r) result p.old.view } }
        ensures found { Found self.now.layout (set_summary n r) p.old.view result }
    {
        let table = &self.table;
        let word = n as usize;
        set::<Brand>(&table.shared, &mut p.seat, word, 1 << r, n, r)
    }

    /// Sets "attached" in the word of the binding `b`, whose attachment has come past its whole row, and gives the
    /// old word. No attachment is under way then.
    pub fn set_attached(&self, p: &mut Pass, b: u32) -> u64
        requires { (p.old.id ≡ self.now.id) × May self.now.layout (set_attached b) p.old.view }
        ensures view { p.new ≡ record p.old { view = after self.now.layout (set_attached b) result p.old.view } }
        ensures found { Found self.now.layout (set_attached b) p.old.view result }
    {
        let table = &self.table;
        let word = self.binding_word(b);
        set::<Brand>(&table.shared, &mut p.seat, word, 1, b, 0)
    }

    /// Sets "disposed" in the word of the binding `b`, and gives the old word. Where that was not disposed, the
    /// view keeps its sum as the count.
    pub fn set_disposed(&self, p: &mut Pass, b: u32) -> u64
        requires { (p.old.id ≡ self.now.id) × May self.now.layout (set_disposed b) p.old.view }
        ensures view { p.new ≡ record p.old { view = after self.now.layout (set_disposed b) result p.old.view } }
        ensures found { Found self.now.layout (set_disposed b) p.old.view result }
    {
        let table = &self.table;
        let word = self.binding_word(b);
        set::<Brand>(&table.shared, &mut p.seat, word, 2, b, 0)
    }

    /// Switches the binding `b` off, and gives the old word.
    pub fn set_off(&self, p: &mut Pass, b: u32) -> u64
        requires { (p.old.id ≡ self.now.id) × May self.now.layout (set_off b) p.old.view }
        ensures view { p.new ≡ record p.old { view = after self.now.layout (set_off b) result p.old.view } }
        ensures found { Found self.now.layout (set_off b) p.old.view result }
    {
        let table = &self.table;
        let word = self.binding_word(b);
        set::<Brand>(&table.shared, &mut p.seat, word, 4, b, 0)
    }

    /// Switches the binding `b` on again, and gives the old word.
    pub fn clear_off(&self, p: &mut Pass, b: u32) -> u64
        requires { (p.old.id ≡ self.now.id) × May self.now.layout (clear_off b) p.old.view }
        ensures view { p.new ≡ record p.old { view = after self.now.layout (clear_off b) result p.old.view } }
        ensures found { Found self.now.layout (clear_off b) p.old.view result }
    {
        let table = &self.table;
        let word = self.binding_word(b);
        leave::<Brand>(&table.shared, &mut p.seat, word, !4, b, 0)
    }

    /// Counts an answer of the session `s`, and gives the old number, which is the answer's. Spends an answer share
    /// of that session.
    pub fn add_answer(&self, p: &mut Pass, s: u32) -> u64
        requires { (p.old.id ≡ self.now.id) × May self.now.layout (count_answer s) p.old.view }
        ensures view { p.new ≡ record p.old { view = after self.now.layout (count_answer s) result p.old.view } }
        ensures found { Found self.now.layout (count_answer s) p.old.view result }
    {
        let table = &self.table;
        let word = self.session_word(s);
        add::<Brand>(&table.shared, &mut p.seat, word, 1, s, 0)
    }

    /// Loads the number of answers of the session `s`, and gives it.
    pub fn load_answers(&self, p: &mut Pass, s: u32) -> u64
        requires { (p.old.id ≡ self.now.id) × May self.now.layout (load_answers s) p.old.view }
        ensures view { p.new ≡ record p.old { view = after self.now.layout (load_answers s) result p.old.view } }
        ensures found { Found self.now.layout (load_answers s) p.old.view result }
    {
        let table = &self.table;
        let word = self.session_word(s);
        read::<Brand>(&table.shared, &mut p.seat, word, s, 0)
    }

    /// Counts the context of this pass as ended, which it has not been, and gives the old number of ended contexts.
    /// Spends an end share.
    pub fn add_end(&self, p: &mut Pass) -> u64
        requires { (p.old.id ≡ self.now.id) × May self.now.layout count_end p.old.view }
        ensures view { p.new ≡ record p.old { view = after self.now.layout count_end result p.old.view } }
        ensures found { Found self.now.layout count_end p.old.view result }
    {
        let table = &self.table;
        let word = self.session_word(self.sessions);
        add::<Brand>(&table.shared, &mut p.seat, word, 1, 0, 0)
    }

    /// Loads the number of ended contexts, and gives it.
    pub fn load_ends(&self, p: &mut Pass) -> u64
        requires { (p.old.id ≡ self.now.id) × May self.now.layout load_ends p.old.view }
        ensures view { p.new ≡ record p.old { view = after self.now.layout load_ends result p.old.view } }
        ensures found { Found self.now.layout load_ends p.old.view result }
    {
        let table = &self.table;
        let word = self.session_word(self.sessions);
        read::<Brand>(&table.shared, &mut p.seat, word, 0, 0)
    }

    /// Cuts a pass in two. The new one knows what the old one knows, has the shares that it is handed, and nothing else.
    pub fn split(&self, p: &mut Pass) -> Pass
        requires { (p.old.id ≡ self.now.id) × MaySplit self.now.layout p.old.view }
        ensures old { p.new ≡ record p.old { view = halved p.old.view } }
        ensures new { result ≡ record { id = p.old.id; view = newcomer p.old.view } }
    {
        let table = &self.table;
        let seat = table.shared.split_seat::<Seats>(&mut p.seat);
        Pass { seat }
    }

    /// Takes in another pass, with its shares and everything that it kept.
    pub fn join(&self, p: &mut Pass, other: Pass)
        requires { (p.old.id ≡ self.now.id) × (other.id ≡ self.now.id) }
        ensures { p.new ≡ record p.old { view = joined p.old.view other.view } }
    {
        let Pass { seat } = other;
        let table = &self.table;
        table.shared.join_seat::<Seats>(&mut p.seat, seat);
    }

    /// The number of contexts.
    pub fn contexts(&self) -> u32
        ensures { result ≡ self.now.layout.contexts }
    {
        self.contexts
    }

    /// The core with all words 0, and the first pass, which has all shares. `rows` has for each binding the nodes that it
    /// matches, rising. Where memory runs out it answers `AllocError`.
    pub fn new(
        alloc: Global,
        rows: Vec<Vec<u32>>,
        nodes: u32,
        sessions: u32,
        contexts: u32,
    ) -> Result<(Core, Pass), AllocError>
        requires { IsSound (layout_of nodes rows.items sessions contexts) }
        ensures { IfOk result (λ r. (r.0.layout ≡ layout_of nodes rows.items sessions contexts) × (r.1.id ≡ r.0.id) × (r.1.view ≡ first_view)) }
    {
        let count = rows.len();
        let width = (count + 63) / 64;
        let front = nodes as usize + nodes as usize * width;
        let behind = front + count;
        let words = Vec::from_elem(alloc, 0u64, behind + (sessions as usize + 1))?;
        let about = Rows {
            nodes,
            lists: rows,
            sessions,
            contexts,
        };
        let (table, seat): (Table<u8, View, Rows, Law, Global>, Seat<u8, View>) = Table::of_words(
            alloc,
            words.as_slice(),
            &about,
        )?;
        Ok((
            Core {
                table,
                nodes,
                sessions,
                contexts,
                rows: width,
                first_binding: front,
                first_session: behind,
            },
            Pass { seat },
        ))
    }

    /// Ends the core, and gives its last words. The rule holds of them, with the view of the last pass. Where memory
    /// runs out it answers `AllocError`, and the core is used up all the same.
    pub fn close(self, alloc: Global, last: Pass) -> Result<Vec<u64>, AllocError>
        requires { last.id ≡ self.id }
        ensures { IfOk result (λ ws. IsLast self.layout last.view ws.items) }
    {
        let Pass { seat } = last;
        let mut words = Vec::from_elem(alloc, 0u64, self.table.word_count())?;
        let Core {
            table,
            nodes: _,
            sessions: _,
            contexts: _,
            rows: _,
            first_binding: _,
            first_session: _,
        } = self;
        let closed = table.close_with(seat);
        for i in 0..words.len() {
            words[i] = closed.word(i);
        }
        closed.free();
        Ok(words)
    }
}

/// The rule holds in the opening state, and after every list of steps by any passes, each under its condition.
pub fn every_run_is_good()
    ensures { EveryRunIsGood }
{}

/// A bit of a node that was clear and is set was set by a set bit in between, and a clear bit leaves it clear. So a pass
/// meets a bit again that it cleared only where an attachment set it in between.
pub fn bits_come_by_set_bit()
    ensures come { BitsComeBySetBit }
    ensures cleared { ClearBitLeavesNone }
{}
