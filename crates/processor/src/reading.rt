//! Which tables a relation reads.

ghost use Rattle.std.specs.Prelude.{◌≡◌, true, ◌==◌};
ghost use Rattle.processor.specs.Reads.{reads, reads_each, any_true, Marks};

use vdb_model::Rel;

/// Sets the mark of each table that the relation reads, by its number, and leaves the others; a table past the marks has
/// none. Tables that views read are not among them.
#[cycle(marking)]
#[tactic(auto, using(crate::proofs::Rules::read_rules))]
pub fn mark_tables(rel: &Rel, marks: &mut [bool])
    ensures { Marks (λ table. reads table rel.now) marks.old marks.new }
{
    match rel {
        Rel::One => {}
        Rel::Table(at) => mark(*at as usize, marks),
        Rel::View(_) => {}
        Rel::Where(of, _) => mark_tables(of.get(), marks),
        Rel::Select(of, _) => mark_tables(of.get(), marks),
        Rel::Join { left, right, .. } => {
            mark_tables(left.get(), marks);
            mark_tables(right.get(), marks);
        }
        Rel::Group { of, .. } => mark_tables(of.get(), marks),
        Rel::Distinct(of) => mark_tables(of.get(), marks),
        Rel::Union(parts) => mark_all(parts.as_slice(), marks),
    }
}

fn mark(table: usize, marks: &mut [bool])
    ensures { Marks (λ other. table == other) marks.old marks.new }
{
    if table < marks.len() {
        marks[table] = true;
    }
}

#[cycle(marking)]
fn mark_all(parts: &[Rel], marks: &mut [bool])
    ensures { Marks (λ table. any_true (reads_each table parts.now)) marks.old marks.new }
{
    for part in parts {
        mark_tables(part, marks);
    }
}
