// The bodies of methods as the tables hold them: where a body's statements are, and what they do together.
ghost use Rattle.std.specs.Prelude.{◌+◌, ◌≡◌};
ghost use Rattle.model.specs.Base.{upto};
ghost use Rattle.model.specs.Vector.{in_body};
ghost use Rattle.catalog.specs.View.{part_of, statement_word};
ghost use Rattle.vector_direct.specs.Says.{Says};
ghost use Rattle.vector_compiler.specs.Bodies.{statement_at, Cut};
ghost use Rattle.vector_compiler.specs.Nodes.{body_of_node};
ghost use Rattle.vector_compiler.specs.Here.{fields_of};

use vector_direct::Vector;

// A class of the library, whose objects the graph is of.
#[derive(Clone, Copy)]
pub struct Class<'a> {
    pub text: &'a [u8],
    pub tables: &'a [u32],
    pub number: u32,
}

// A run of the text's statements.
#[derive(Clone, Copy)]
pub struct Body {
    pub first: u32,
    pub size: u32,
}

// The statements from one up to another, cut at the text's last statement.
fn run_of(tables: &[u32], first: u32, end: u32) -> Body
    ensures { Cut tables.now first end result.first result.size }
{
    let left = catalog::statement_count(tables).saturating_sub(first);
    Body {
        first,
        size: end.saturating_sub(first).min(left),
    }
}

// The body of the method with a number, cut at the text's last statement.
pub fn body_of(text: &[u8], tables: &[u32], node: u32) -> Body
    ensures { body_of_node text.now tables.now node ≡ upto (statement_at text.now tables.now result.first) result.size }
{
    let class = node / 32;
    let name = catalog::name_of(
        text,
        catalog::member_word(tables, class, layout::METHODS, node % 32),
    );
    match catalog::body::body_in(text, tables, class, name) {
        Some(found) => run_of(tables, found.first, found.end),
        None => Body { first: 0, size: 0 },
    }
}

// The line of statement i of a run.
pub fn line_of<'a>(text: &'a [u8], tables: &[u32], first: u32, i: u32) -> &'a [u8]
    ensures { result.now ≡ part_of text.now (statement_word tables.now (first + i)) }
{
    catalog::part_of(
        text,
        memory::get(
            tables,
            layout::STATEMENTS_AT + (first as usize + i as usize),
        ),
    )
}

// The direct vector of the method with a number, over the fields of a class.
pub fn body_vector(class: &Class<'_>, node: u32) -> Vector
    ensures { Says (fields_of class.now) (λ f. in_body f (body_of_node class.now.text.now class.now.tables.now node)) result }
{
    let body = body_of(class.text, class.tables, node);
    let mut vector = Vector {
        depends: 0,
        changes: 0,
    };
    for i in 0..body.size {
        let line = line_of(class.text, class.tables, body.first, i);
        vector = vector_direct::joined(
            vector,
            vector_direct::line_vector(class.text, class.tables, class.number, line),
        );
    }
    vector
}
