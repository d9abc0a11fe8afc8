// What is reached from a method in the graph of a class (definitions 7 to 10): a worklist by marks. Each body that is reached is
// followed once. A stack suggests the next one; the marks alone decide.
ghost use Rattle.std.specs.Prelude.{ℕ, ◌≡◌, ◌-◌, List, map, length, get_or, set, replicate};
ghost use Rattle.vector_direct.specs.Says.{Says};
ghost use Rattle.vector_compiler.specs.Here.{fields_of, CallsIn};
ghost use Rattle.vector_compiler.specs.Marks.{touch, NextMet, CallsMet, Followed, Partly, Closed};
ghost use Rattle.vector_compiler.specs.Numbers.{number};
ghost use Rattle.vector_compiler.specs.Stack.{pushed, latest};
ghost use Rattle.vector_compiler.specs.Joining.{joined_modes};
ghost use Rattle.vector_compiler.specs.Closure.{marked_mode, VectorFound};
ghost use Rattle.vector_compiler.specs.Memo.{Kept};

use super::body::Class;
use super::memo::Memo;
use std::marker::Model;
use vector_direct::Vector;

// One number more than the highest of a method.
const NODES: u32 = 512;

// What is known of a method: nothing, that it is reached, or also what it calls.
#[derive(Clone, Copy, PartialEq, Eq)]
pub enum Mark {
    New,
    Met,
    Followed,
}

// Numbers of methods, of which the latest comes off first.
#[derive(Drop)]
struct Stack {
    nodes: [u32; 512],
    count: usize,
}

impl Stack {
    // Puts a method on the stack; does nothing for a number that no method has, or where there is no room.
    fn push(&mut self, node: u32)
        ensures { self.new ≡ pushed node self.old }
    {
        if node < NODES && self.count < self.nodes.len() {
            self.nodes[self.count] = node;
            self.count += 1;
        }
    }

    // Takes the latest method off the stack.
    fn pop(&mut self) -> Option<u32>
        ensures latest { result ≡ latest self.old }
        ensures count { self.new.count ≡ self.old.count - 1 }
        ensures nodes { self.new.nodes ≡ self.old.nodes }
    {
        self.count = self.count.checked_sub(1)?;
        self.nodes.get(self.count).copied()
    }
}

// The marks of the methods by their numbers, and a stack of those to follow.
#[derive(Drop)]
struct Worklist {
    marks: [Mark; 512],
    stack: Stack,
}

// Clauses see the marks as numbers.
impl Model for Worklist {
    ghost Value = { List ℕ };

    ghost view = { λ w. map number w.marks };

    ghost invariant = { λ w. length w.marks ≡ 512 };
}

impl Worklist {
    // A worklist on which no method is met.
    fn new() -> Worklist
        ensures { result ≡ replicate 512 0 }
    {
        Worklist {
            marks: [Mark::New; 512],
            stack: Stack {
                nodes: [0; 512],
                count: 0,
            },
        }
    }

    // The mark of a method.
    fn mark(&self, node: u32) -> Mark
        ensures { number result ≡ get_or self.now node 0 }
    {
        self.marks.get(node as usize).copied().unwrap_or(Mark::New)
    }

    // Sets the mark of a method; does nothing for a number that no method has.
    fn put_mark(&mut self, node: u32, mark: Mark)
        ensures { self.new ≡ set self.old node (number mark) }
    {
        let place = node as usize;
        if place < self.marks.len() {
            self.marks[place] = mark;
        }
    }

    // Marks a method as met and puts it on the stack, where it is not met yet.
    fn meet(&mut self, node: u32)
        ensures { self.new ≡ touch node self.old }
    {
        if self.mark(node) == Mark::New {
            self.put_mark(node, Mark::Met);
            self.stack.push(node);
        }
    }

    // The lowest number of a method that is met and not followed.
    fn first_met(&self) -> Option<u32>
        ensures { NextMet self.now result }
    {
        for node in 0..NODES {
            if self.mark(node) == Mark::Met {
                return Some(node);
            }
        }
        None
    }

    // Takes from the stack a method that is met and not followed, or else the lowest one.
    fn next_met(&mut self) -> Option<u32>
        ensures next_met { NextMet self.old result }
        ensures marks_unchanged { self.new ≡ self.old }
    {
        if let Some(node) = self.stack.pop() {
            if self.mark(node) == Mark::Met {
                return Some(node);
            }
        }
        self.first_met()
    }

    // Meets all that the method calls on an object of the class.
    fn meet_calls(&mut self, class: &Class<'_>, node: u32, memo: &mut Memo)
        requires { Kept class.now memo.old }
        ensures calls_met { CallsMet (CallsIn class.now) node self.old self.new }
        ensures memory { Kept class.now memo.new }
    {
        let body = memo.direct_of(class, node).body;
        for i in 0..body.size {
            let number = memo.callee_of(class, body.first, i);
            self.meet(number);
        }
    }

    // Follows one method.
    fn follow(&mut self, class: &Class<'_>, node: u32, memo: &mut Memo)
        requires { Kept class.now memo.old }
        ensures followed { Followed (CallsIn class.now) node self.old self.new }
        ensures memory { Kept class.now memo.new }
    {
        self.put_mark(node, Mark::Followed);
        self.meet_calls(class, node, memo);
    }

    // Follows calls until none is left.
    fn close(&mut self, class: &Class<'_>, memo: &mut Memo)
        requires { Kept class.now memo.old }
        ensures by_index { (root : ℕ) → Partly (CallsIn class.now) root self.old → Closed (CallsIn class.now) root self.new }
        ensures memory { Kept class.now memo.new }
    {
        while let Some(node) = self.next_met() {
            self.follow(class, node, memo);
        }
    }

    // The direct vector of a marked method; empty for one that is not marked.
    fn marked_body_vector(&self, class: &Class<'_>, node: u32, memo: &mut Memo) -> Vector
        requires { Kept class.now memo.old }
        ensures says { Says (fields_of class.now) (marked_mode class.now.text.now class.now.tables.now class.now.number self.now node) result }
        ensures memory { Kept class.now memo.new }
    {
        if self.mark(node) == Mark::New {
            Vector {
                depends: 0,
                changes: 0,
            }
        } else {
            memo.direct_of(class, node).vector
        }
    }

    // The direct vectors of all marked methods, joined.
    fn marked_vector(&self, class: &Class<'_>, memo: &mut Memo) -> Vector
        requires { Kept class.now memo.old }
        ensures says { Says (fields_of class.now) (joined_modes (marked_mode class.now.text.now class.now.tables.now class.now.number self.now) 512) result }
        ensures memory { Kept class.now memo.new }
    {
        let mut vector = Vector {
            depends: 0,
            changes: 0,
        };
        for node in 0..NODES {
            let direct = self.marked_body_vector(class, node, memo);
            vector = vector_direct::joined(vector, direct);
        }
        vector
    }
}

// The transitive vector of the method at a place of a class.
pub(crate) fn vector_of(class: &Class<'_>, place: u32, memo: &mut Memo) -> Vector
    requires { Kept class.now memo.old }
    ensures vector_found { VectorFound class.now.text.now class.now.tables.now class.now.number place result }
    ensures memory { Kept class.now memo.new }
{
    let mut worklist = Worklist::new();
    worklist.meet(class.number % 16 * 32 + place % 32);
    worklist.close(class, memo);
    worklist.marked_vector(class, memo)
}
