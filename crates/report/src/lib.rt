// The report: the lines that dayreport prints for a book, on a refusal and on a file that is too long, put into lent bytes; and the parts of a line, of which daysalvage makes its own.
#![tactic(auto)]

mod printer;

ghost use Rattle.std.specs.Prelude.{◌≡◌, cond, [], map, ℕ, ◌+◌, ◌<◌};
ghost use Rattle.rules.specs.Lists.{up_to, joined};
ghost use Rattle.rules.specs.Book as rule;
ghost use Rattle.report.specs.Lines as lines;
ghost use Rattle.report.specs.Printed.{Puts, Printed};

pub use printer::Printer;

// Puts N_0 to N_D, each after one space.
fn put_counts(printer: &mut Printer, book: &[u32])
    requires { printer.old.at < 32000 }
    ensures { Puts 44 printer.old (lines.spaced (map (λ (d : ℕ). lines.digits (rule.count book.now d)) (up_to (rule.dim book.now + 1)))) printer.new }
{
    for d in 0..book::dim(book) + 1 {
        printer.put_field(book::count(book, d));
    }
}

// Puts "mesh", then D and N_0 to N_D.
fn put_mesh(printer: &mut Printer, book: &[u32])
    requires { printer.old.at < 31000 }
    ensures { Puts 60 printer.old (lines.mesh_line book.now) printer.new }
{
    printer.put_text(b"mesh");
    printer.put_field(book::dim(book));
    put_counts(printer, book);
    printer.put_byte(b'\n');
}

// Puts the line of the relation of key k: d, d', N_d, number of indices.
fn put_relation(printer: &mut Printer, book: &[u32], k: u32)
    requires { printer.old.at < 31000 }
    ensures { Puts 44 printer.old (lines.relation_line book.now k) printer.new }
{
    printer.put_number(k / 4);
    printer.put_field(k % 4);
    printer.put_field(book::count(book, k / 4));
    printer.put_field(book::total(book, k));
    printer.put_byte(b'\n');
}

// Puts the line of the relation of key k, if it is held.
fn put_held(printer: &mut Printer, book: &[u32], k: u32)
    requires { printer.old.at < 31000 }
    ensures { Puts 44 printer.old (cond (rule.held book.now k) (lines.relation_line book.now k) []) printer.new }
{
    if book::held(book, k) {
        put_relation(printer, book, k);
    }
}

// Puts the line of each relation held, by ascending key.
fn put_relations(printer: &mut Printer, book: &[u32])
    requires { printer.old.at < 30000 }
    ensures { Puts 704 printer.old (joined (map (lines.relation_line book.now) (rule.keys_held book.now))) printer.new }
{
    for k in 0..16 {
        put_held(printer, book, k);
    }
}

// All that is printed for a book: the mesh, then each relation held by ascending key. Gives the text's length.
pub fn report(book: &[u32], out: &mut [u8]) -> usize
    ensures { Printed 764 (lines.report book.now) out.old result out.new }
{
    let mut printer = Printer::new(out);
    put_mesh(&mut printer, book);
    put_relations(&mut printer, book);
    printer.at
}

// "refused" and the number. Gives the text's length.
pub fn refused(n: u32, out: &mut [u8]) -> usize
    ensures { Printed 19 (lines.refused_line n) out.old result out.new }
{
    let mut printer = Printer::new(out);
    printer.put_text(b"refused");
    printer.put_field(n);
    printer.put_byte(b'\n');
    printer.at
}

// "too long". Gives the text's length.
#[tactic(auto, using(crate::proofs::Putting::puts_printed), unfolding(crate::specs::Lines::too_long, crate::specs::Lines::line, crate::specs::Lines::spaced))]
pub fn too_long(out: &mut [u8]) -> usize
    ensures { Printed 9 lines.too_long out.old result out.new }
{
    let mut printer = Printer::new(out);
    printer.put_text(b"too long\n");
    printer.at
}
