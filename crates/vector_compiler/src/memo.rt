// What is found once for a class and kept while the vectors of its methods are made: for each method, where its body is and its
// direct vector; for each statement, what it calls.
ghost use Rattle.std.specs.Prelude.{◌≡◌, ◌≤◌, ℕ, List, get_or, set, Some, None};
ghost use Rattle.vector_compiler.specs.Meeting.{call_at};
ghost use Rattle.vector_compiler.specs.Memo.{Right, Memory, Kept};

use super::body::{Body, Class, body_of, body_vector, line_of};
use vector_direct::Vector;

// What a method does by itself: the run of its statements, and the fields of the class that they depend on and change.
#[derive(Clone, Copy)]
pub struct Direct {
    pub body: Body,
    pub vector: Vector,
}

// What is kept of each method by its number, and of each statement the number of what it calls, which is at most 512: in 16 bits, since
// each class begins with an empty memo, and to empty it costs by its size.
#[derive(Drop)]
pub struct Memo {
    pub bodies: [Option<Direct>; 512],
    pub callees: [Option<u16>; 4096],
}

// What a method does by itself, by its number, found in the text.
fn found(class: &Class<'_>, node: u32) -> Direct
    ensures { Right class.now.text.now class.now.tables.now class.now.number node result }
{
    Direct {
        body: body_of(class.text, class.tables, node),
        vector: body_vector(class, node),
    }
}

impl Memo {
    // A memo that keeps nothing.
    pub(crate) fn new() -> Memo
        ensures { (text tables : List ℕ) (class : ℕ) → Memory text tables class result }
    {
        Memo {
            bodies: [None; 512],
            callees: [None; 4096],
        }
    }

    // What is kept of a method.
    fn body(&self, node: u32) -> Option<Direct>
        ensures { result ≡ get_or self.now.bodies node None }
    {
        *self.bodies.get(node as usize)?
    }

    // Keeps what a method does by itself; nothing for a number that no method has.
    fn keep_body(&mut self, node: u32, direct: Direct)
        ensures bodies { self.new.bodies ≡ set self.old.bodies node (Some direct) }
        ensures callees { self.new.callees ≡ self.old.callees }
    {
        let place = node as usize;
        if place < self.bodies.len() {
            self.bodies[place] = Some(direct);
        }
    }

    // What is kept of a statement.
    fn callee(&self, statement: usize) -> Option<u32>
        ensures { result ≡ get_or self.now.callees statement None }
    {
        let number = (*self.callees.get(statement)?)?;
        Some(u32::from(number))
    }

    // Keeps the number of what a statement calls; nothing past the last one.
    fn keep_callee(&mut self, statement: usize, number: u32)
        requires { number ≤ 512 }
        ensures bodies { self.new.bodies ≡ self.old.bodies }
        ensures callees { self.new.callees ≡ set self.old.callees statement (Some number) }
    {
        if statement < self.callees.len() {
            self.callees[statement] = Some(number as u16);
        }
    }

    // What a method does by itself; found and kept where it is not kept yet.
    pub(crate) fn direct_of(&mut self, class: &Class<'_>, node: u32) -> Direct
        requires { Kept class.now self.old }
        ensures right { Right class.now.text.now class.now.tables.now class.now.number node result }
        ensures memory { Kept class.now self.new }
    {
        if let Some(direct) = self.body(node) {
            return direct;
        }
        let direct = found(class, node);
        self.keep_body(node, direct);
        direct
    }

    // The number of what statement i of a run calls on an object of the class; found and kept where it is not kept yet.
    pub(crate) fn callee_of(&mut self, class: &Class<'_>, first: u32, i: u32) -> u32
        requires { Kept class.now self.old }
        ensures value { result ≡ call_at class.now.text.now class.now.tables.now class.now.number first i }
        ensures memory { Kept class.now self.new }
    {
        let statement = first as usize + i as usize;
        if let Some(number) = self.callee(statement) {
            return number;
        }
        let line = line_of(class.text, class.tables, first, i);
        let number = vector_direct::line_callee(class.text, class.tables, class.number, line);
        self.keep_callee(statement, number);
        number
    }
}
