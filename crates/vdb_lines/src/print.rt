//! Printing through a buffer, which is flushed before a public function returns.

ghost use Rattle.std.specs.Prelude.{◌≡◌, ◌++◌, ◌∷◌, [], ◌<◌, length, is_ok, codes};
ghost use Rattle.std.specs.Fmt.{signed_decimal};
ghost use Rattle.vdb_base.specs.Buffering.{Buffers, waiting};
ghost use Rattle.vdb_base.specs.Print.{doubled, quoted, value_text};
ghost use Rattle.vdb_base.specs.Printing.{Prints};
ghost use Rattle.vdb_model.specs.FaultText as fault_spec;
ghost use Rattle.vdb_model.specs.FaultText.{store_text, deploy_text, deploy_line};
ghost use Rattle.vdb_model.specs.Lines.{number_text, line, spaced, parts};
ghost use Rattle.vdb_model.specs.NameText.{name_text};
ghost use Rattle.vdb_model.specs.RefusalText as refusal_spec;
ghost use Rattle.vdb_model.specs.RefusalText.{place_text, opened_text, refusal_text, refusal_line};
ghost use Rattle.vdb_model.specs.ReplyText.{listed, name_texts, value_texts, row_line, row_lines, ask_lines, end_line, reply_text};

use itoa::Buffer;
use vdb_base::{Failed, Row, Sink, Text, Value, WriteBuffer};
use vdb_model::{DeployFault, Refusal, Reply, is_word};

fn print_word<O: Sink>(word: &str, pen: &mut WriteBuffer, out: &mut O) -> Result<(), Failed>
    ensures { Buffers (is_ok result) (O.told out.old) (O.told out.new) (waiting pen.old) (waiting pen.new) word.now }
{
    pen.write(word.as_bytes(), out)
}

fn print_byte<O: Sink>(byte: u8, pen: &mut WriteBuffer, out: &mut O) -> Result<(), Failed>
    ensures { Buffers (is_ok result) (O.told out.old) (O.told out.new) (waiting pen.old) (waiting pen.new) (byte ∷ []) }
{
    pen.write(&[byte], out)
}

#[tactic(auto, unfolding(vdb_model::specs::Lines::number_text))]
fn print_number<O: Sink>(number: u64, pen: &mut WriteBuffer, out: &mut O) -> Result<(), Failed>
    ensures { Buffers (is_ok result) (O.told out.old) (O.told out.new) (waiting pen.old) (waiting pen.new) (number_text number) }
{
    let mut digits = Buffer::new();
    pen.write(digits.format(number).as_bytes(), out)
}

fn print_integer<O: Sink>(number: i128, pen: &mut WriteBuffer, out: &mut O) -> Result<(), Failed>
    ensures { Buffers (is_ok result) (O.told out.old) (O.told out.new) (waiting pen.old) (waiting pen.new) (signed_decimal number) }
{
    let mut digits = Buffer::new();
    pen.write(digits.format(number).as_bytes(), out)
}

// What stands before a quote, and the quote twice.
fn print_to_quote<O: Sink>(
    head: &str,
    quote: u8,
    pen: &mut WriteBuffer,
    out: &mut O,
) -> Result<(), Failed>
    ensures { Buffers (is_ok result) (O.told out.old) (O.told out.new) (waiting pen.old) (waiting pen.new) (head.now ++ quote ∷ quote ∷ []) }
{
    match print_word(head, pen, out) {
        Ok(()) => pen.write(&[quote, quote], out),
        Err(failed) => Err(failed),
    }
}

// The text with each quote doubled: what stands between quotes goes out as a whole.
fn print_doubled<O: Sink>(
    text: &str,
    quote: u8,
    pen: &mut WriteBuffer,
    out: &mut O,
) -> Result<(), Failed>
    requires { quote < 128 }
    ensures { Buffers (is_ok result) (O.told out.old) (O.told out.new) (waiting pen.old) (waiting pen.new) (doubled quote text.now) }
{
    let mut rest = text;
    while let Some((head, tail)) = rest.split_once(char::from(quote)) {
        match print_to_quote(head, quote, pen, out) {
            Ok(()) => {}
            Err(failed) => return Err(failed),
        }
        rest = tail;
    }
    print_word(rest, pen, out)
}

fn print_quoted<O: Sink>(
    text: &str,
    quote: u8,
    pen: &mut WriteBuffer,
    out: &mut O,
) -> Result<(), Failed>
    requires { quote < 128 }
    ensures { Buffers (is_ok result) (O.told out.old) (O.told out.new) (waiting pen.old) (waiting pen.new) (quoted quote text.now) }
{
    match print_byte(quote, pen, out) {
        Ok(()) => {}
        Err(failed) => return Err(failed),
    }
    match print_doubled(text, quote, pen, out) {
        Ok(()) => print_byte(quote, pen, out),
        Err(failed) => Err(failed),
    }
}

fn print_name<O: Sink>(name: &Text, pen: &mut WriteBuffer, out: &mut O) -> Result<(), Failed>
    ensures { Buffers (is_ok result) (O.told out.old) (O.told out.new) (waiting pen.old) (waiting pen.new) (name_text name.now) }
{
    if is_word(name.as_bytes()) {
        print_word(name.as_str(), pen, out)
    } else {
        print_quoted(name.as_str(), b'"', pen, out)
    }
}

fn print_value<O: Sink>(value: &Value, pen: &mut WriteBuffer, out: &mut O) -> Result<(), Failed>
    ensures { Buffers (is_ok result) (O.told out.old) (O.told out.new) (waiting pen.old) (waiting pen.new) (value_text value.now) }
{
    match value {
        Value::Null => print_word("NULL", pen, out),
        Value::Bool(true) => print_word("TRUE", pen, out),
        Value::Bool(false) => print_word("FALSE", pen, out),
        Value::Num(number) => print_integer(*number, pen, out),
        Value::Str(text) => print_quoted(text.as_str(), b'\'', pen, out),
    }
}

// A column's name behind what parts it from the one before.
fn print_column<O: Sink>(
    mark: u8,
    name: &Text,
    pen: &mut WriteBuffer,
    out: &mut O,
) -> Result<(), Failed>
    ensures { Buffers (is_ok result) (O.told out.old) (O.told out.new) (waiting pen.old) (waiting pen.new) (mark ∷ name_text name.now) }
{
    match print_byte(mark, pen, out) {
        Ok(()) => print_name(name, pen, out),
        Err(failed) => Err(failed),
    }
}

fn print_columns<O: Sink>(names: &[Text], pen: &mut WriteBuffer, out: &mut O) -> Result<(), Failed>
    ensures { Buffers (is_ok result) (O.told out.old) (O.told out.new) (waiting pen.old) (waiting pen.new) (line (listed (codes "COLUMNS") (name_texts names.now))) }
{
    match print_word("COLUMNS", pen, out) {
        Ok(()) => {}
        Err(failed) => return Err(failed),
    }
    let mut mark = b' ';
    for name in names {
        match print_column(mark, name, pen, out) {
            Ok(()) => {}
            Err(failed) => return Err(failed),
        }
        mark = b',';
    }
    print_byte(b'\n', pen, out)
}

// A cell behind what parts it from the one before.
fn print_cell<O: Sink>(
    mark: u8,
    value: &Value,
    pen: &mut WriteBuffer,
    out: &mut O,
) -> Result<(), Failed>
    ensures { Buffers (is_ok result) (O.told out.old) (O.told out.new) (waiting pen.old) (waiting pen.new) (mark ∷ value_text value.now) }
{
    match print_byte(mark, pen, out) {
        Ok(()) => print_value(value, pen, out),
        Err(failed) => Err(failed),
    }
}

fn print_row<O: Sink>(row: &[Value], pen: &mut WriteBuffer, out: &mut O) -> Result<(), Failed>
    ensures { Buffers (is_ok result) (O.told out.old) (O.told out.new) (waiting pen.old) (waiting pen.new) (row_line row.now) }
{
    match print_word("ROW", pen, out) {
        Ok(()) => {}
        Err(failed) => return Err(failed),
    }
    let mut mark = b' ';
    for value in row {
        match print_cell(mark, value, pen, out) {
            Ok(()) => {}
            Err(failed) => return Err(failed),
        }
        mark = b',';
    }
    print_byte(b'\n', pen, out)
}

fn print_rows<O: Sink>(rows: &[Row], pen: &mut WriteBuffer, out: &mut O) -> Result<(), Failed>
    ensures { Buffers (is_ok result) (O.told out.old) (O.told out.new) (waiting pen.old) (waiting pen.new) (row_lines rows.now) }
{
    for row in rows {
        match print_row(row.as_slice(), pen, out) {
            Ok(()) => {}
            Err(failed) => return Err(failed),
        }
    }
    Ok(())
}

// A word, a text and the end of the line.
fn print_text_line<O: Sink>(
    word: &str,
    text: &Text,
    pen: &mut WriteBuffer,
    out: &mut O,
) -> Result<(), Failed>
    ensures { Buffers (is_ok result) (O.told out.old) (O.told out.new) (waiting pen.old) (waiting pen.new) (line (word.now ++ text.now)) }
{
    match print_word(word, pen, out) {
        Ok(()) => {}
        Err(failed) => return Err(failed),
    }
    match print_word(text.as_str(), pen, out) {
        Ok(()) => print_byte(b'\n', pen, out),
        Err(failed) => Err(failed),
    }
}

// A word, a number and the end of the line.
fn print_number_line<O: Sink>(
    word: &[u8],
    number: u64,
    pen: &mut WriteBuffer,
    out: &mut O,
) -> Result<(), Failed>
    ensures { Buffers (is_ok result) (O.told out.old) (O.told out.new) (waiting pen.old) (waiting pen.new) (line (word.now ++ number_text number)) }
{
    match pen.write(word, out) {
        Ok(()) => {}
        Err(failed) => return Err(failed),
    }
    match print_number(number, pen, out) {
        Ok(()) => print_byte(b'\n', pen, out),
        Err(failed) => Err(failed),
    }
}

fn print_asks<O: Sink>(asks: &[Text], pen: &mut WriteBuffer, out: &mut O) -> Result<(), Failed>
    ensures { Buffers (is_ok result) (O.told out.old) (O.told out.new) (waiting pen.old) (waiting pen.new) (ask_lines asks.now) }
{
    for ask in asks {
        match print_text_line("ASK ", ask, pen, out) {
            Ok(()) => {}
            Err(failed) => return Err(failed),
        }
    }
    Ok(())
}

// The names of the columns, the rows, and how many these are.
fn print_table<O: Sink>(
    names: &[Text],
    rows: &[Row],
    pen: &mut WriteBuffer,
    out: &mut O,
) -> Result<(), Failed>
    ensures { Buffers (is_ok result) (O.told out.old) (O.told out.new) (waiting pen.old) (waiting pen.new) (line (listed (codes "COLUMNS") (name_texts names.now)) ++ row_lines rows.now ++ end_line (length rows.now)) }
{
    match print_columns(names, pen, out) {
        Ok(()) => {}
        Err(failed) => return Err(failed),
    }
    match print_rows(rows, pen, out) {
        Ok(()) => print_number_line(b"END ".as_slice(), rows.len() as u64, pen, out),
        Err(failed) => Err(failed),
    }
}

fn print_asked<O: Sink>(
    asks: &[Text],
    count: u64,
    pen: &mut WriteBuffer,
    out: &mut O,
) -> Result<(), Failed>
    ensures { Buffers (is_ok result) (O.told out.old) (O.told out.new) (waiting pen.old) (waiting pen.new) (ask_lines asks.now ++ end_line count) }
{
    match print_asks(asks, pen, out) {
        Ok(()) => print_number_line(b"END ".as_slice(), count, pen, out),
        Err(failed) => Err(failed),
    }
}

// A space and a number.
fn print_count<O: Sink>(number: u64, pen: &mut WriteBuffer, out: &mut O) -> Result<(), Failed>
    ensures { Buffers (is_ok result) (O.told out.old) (O.told out.new) (waiting pen.old) (waiting pen.new) (32 ∷ number_text number) }
{
    match print_byte(b' ', pen, out) {
        Ok(()) => print_number(number, pen, out),
        Err(failed) => Err(failed),
    }
}

fn print_counts<O: Sink>(
    first: u64,
    second: u64,
    pen: &mut WriteBuffer,
    out: &mut O,
) -> Result<(), Failed>
    ensures { Buffers (is_ok result) (O.told out.old) (O.told out.new) (waiting pen.old) (waiting pen.new) (32 ∷ parts (number_text first) (number_text second ∷ [])) }
{
    match print_count(first, pen, out) {
        Ok(()) => print_count(second, pen, out),
        Err(failed) => Err(failed),
    }
}

// A space and a number. A number's text is never empty.
fn print_doomed<O: Sink>(number: u64, pen: &mut WriteBuffer, out: &mut O) -> Result<(), Failed>
    ensures { Buffers (is_ok result) (O.told out.old) (O.told out.new) (waiting pen.old) (waiting pen.new) (spaced (number_text number)) }
{
    print_count(number, pen, out)
}

// A space and a text.
fn print_field<O: Sink>(text: &Text, pen: &mut WriteBuffer, out: &mut O) -> Result<(), Failed>
    ensures { Buffers (is_ok result) (O.told out.old) (O.told out.new) (waiting pen.old) (waiting pen.new) (32 ∷ text.now) }
{
    match print_byte(b' ', pen, out) {
        Ok(()) => print_word(text.as_str(), pen, out),
        Err(failed) => Err(failed),
    }
}

// Nothing where the text is empty.
fn print_spaced<O: Sink>(text: &Text, pen: &mut WriteBuffer, out: &mut O) -> Result<(), Failed>
    ensures { Buffers (is_ok result) (O.told out.old) (O.told out.new) (waiting pen.old) (waiting pen.new) (spaced text.now) }
{
    if text.len() == 0 {
        Ok(())
    } else {
        print_field(text, pen, out)
    }
}

fn print_place<O: Sink>(at: u64, pen: &mut WriteBuffer, out: &mut O) -> Result<(), Failed>
    ensures { Buffers (is_ok result) (O.told out.old) (O.told out.new) (waiting pen.old) (waiting pen.new) (spaced (place_text at)) }
{
    match print_word(" at ", pen, out) {
        Ok(()) => print_number(at, pen, out),
        Err(failed) => Err(failed),
    }
}

fn print_raised<O: Sink>(text: &Text, pen: &mut WriteBuffer, out: &mut O) -> Result<(), Failed>
    ensures { Buffers (is_ok result) (O.told out.old) (O.told out.new) (waiting pen.old) (waiting pen.new) (spaced (quoted 39 text.now)) }
{
    match print_byte(b' ', pen, out) {
        Ok(()) => print_quoted(text.as_str(), b'\'', pen, out),
        Err(failed) => Err(failed),
    }
}

fn print_opened<O: Sink>(opened: bool, pen: &mut WriteBuffer, out: &mut O) -> Result<(), Failed>
    ensures { Buffers (is_ok result) (O.told out.old) (O.told out.new) (waiting pen.old) (waiting pen.new) (spaced (opened_text opened)) }
{
    if opened {
        print_word(" open", pen, out)
    } else {
        print_word(" none", pen, out)
    }
}

// A text and a number.
fn print_counted<O: Sink>(
    text: &Text,
    number: u64,
    pen: &mut WriteBuffer,
    out: &mut O,
) -> Result<(), Failed>
    ensures { Buffers (is_ok result) (O.told out.old) (O.told out.new) (waiting pen.old) (waiting pen.new) (32 ∷ parts text.now (number_text number ∷ [])) }
{
    match print_field(text, pen, out) {
        Ok(()) => print_count(number, pen, out),
        Err(failed) => Err(failed),
    }
}

// A text and two numbers.
fn print_measured<O: Sink>(
    text: &Text,
    first: u64,
    second: u64,
    pen: &mut WriteBuffer,
    out: &mut O,
) -> Result<(), Failed>
    ensures { Buffers (is_ok result) (O.told out.old) (O.told out.new) (waiting pen.old) (waiting pen.new) (32 ∷ parts text.now (number_text first ∷ number_text second ∷ [])) }
{
    match print_field(text, pen, out) {
        Ok(()) => print_counts(first, second, pen, out),
        Err(failed) => Err(failed),
    }
}

fn refusal_number(refusal: &Refusal) -> u64
    ensures { result ≡ refusal_spec.refusal_number refusal.now }
{
    match refusal {
        Refusal::Syntax { .. } => 1,
        Refusal::Unknown { .. } => 2,
        Refusal::Ambiguous { .. } => 3,
        Refusal::Mismatch { .. } => 4,
        Refusal::Fractional { .. } => 5,
        Refusal::TooWide { .. } => 6,
        Refusal::Unbound { .. } => 7,
        Refusal::NotUpdatable { .. } => 8,
        Refusal::ReadOnly { .. } => 9,
        Refusal::NullInto { .. } => 10,
        Refusal::DuplicateKey { .. } => 11,
        Refusal::OutOfRange { .. } => 12,
        Refusal::TooLong { .. } => 13,
        Refusal::Raised { .. } => 14,
        Refusal::BudgetSpent => 15,
        Refusal::Transaction { .. } => 16,
        Refusal::Doomed { .. } => 17,
        Refusal::TooLarge { .. } => 18,
        Refusal::LogFull { .. } => 19,
    }
}

// What stands behind a refusal's number.
fn print_refusal_text<O: Sink>(
    refusal: &Refusal,
    pen: &mut WriteBuffer,
    out: &mut O,
) -> Result<(), Failed>
    ensures { Buffers (is_ok result) (O.told out.old) (O.told out.new) (waiting pen.old) (waiting pen.new) (spaced (refusal_text refusal.now)) }
{
    match refusal {
        Refusal::Syntax { at } => print_place(*at, pen, out),
        Refusal::Unknown { name } => print_spaced(name, pen, out),
        Refusal::Ambiguous { name } => print_spaced(name, pen, out),
        Refusal::Mismatch { at } => print_place(*at, pen, out),
        Refusal::Fractional { at } => print_place(*at, pen, out),
        Refusal::TooWide { at } => print_place(*at, pen, out),
        Refusal::Unbound { table } => print_spaced(table, pen, out),
        Refusal::NotUpdatable { name } => print_spaced(name, pen, out),
        Refusal::ReadOnly { server } => print_spaced(server, pen, out),
        Refusal::NullInto { column } => print_spaced(column, pen, out),
        Refusal::DuplicateKey { table } => print_spaced(table, pen, out),
        Refusal::OutOfRange { column } => print_spaced(column, pen, out),
        Refusal::TooLong { column } => print_spaced(column, pen, out),
        Refusal::Raised { text } => print_raised(text, pen, out),
        Refusal::BudgetSpent => Ok(()),
        Refusal::Transaction { opened } => print_opened(*opened, pen, out),
        Refusal::Doomed { number } => print_doomed(*number, pen, out),
        Refusal::TooLarge { nodes, depth } => print_counts(*nodes, *depth, pen, out),
        Refusal::LogFull {
            server,
            needed,
            left,
        } => print_measured(server, *needed, *left, pen, out),
    }
}

fn deploy_number(fault: &DeployFault) -> u64
    ensures { result ≡ fault_spec.deploy_number fault.now }
{
    match fault {
        DeployFault::Syntax { .. } => 31,
        DeployFault::Duplicate { .. } => 32,
        DeployFault::Unknown { .. } => 33,
        DeployFault::FractionalType { .. } => 34,
        DeployFault::BadOption { .. } => 35,
        DeployFault::NoConnection { .. } => 36,
        DeployFault::WrongKind { .. } => 37,
        DeployFault::Columns { .. } => 38,
        DeployFault::Limit { .. } => 39,
        DeployFault::BadPattern { .. } => 40,
        DeployFault::BadCell { .. } => 41,
        DeployFault::BadStore { .. } => 42,
        DeployFault::Astray { .. } => 43,
        DeployFault::Body { .. } => 44,
        DeployFault::JournalFull => 45,
    }
}

fn print_bad_cell<O: Sink>(
    server: &Text,
    table: &Text,
    row: u64,
    col: u64,
    pen: &mut WriteBuffer,
    out: &mut O,
) -> Result<(), Failed>
    ensures { Buffers (is_ok result) (O.told out.old) (O.told out.new) (waiting pen.old) (waiting pen.new) (32 ∷ parts server.now (table.now ∷ number_text row ∷ number_text col ∷ [])) }
{
    match print_field(server, pen, out) {
        Ok(()) => print_measured(table, row, col, pen, out),
        Err(failed) => Err(failed),
    }
}

fn print_store<O: Sink>(
    table: &Option<Text>,
    pen: &mut WriteBuffer,
    out: &mut O,
) -> Result<(), Failed>
    ensures { Buffers (is_ok result) (O.told out.old) (O.told out.new) (waiting pen.old) (waiting pen.new) (32 ∷ store_text table.now) }
{
    match table {
        Some(table) => print_field(table, pen, out),
        None => print_word(" 0", pen, out),
    }
}

fn print_bad_store<O: Sink>(
    server: &Text,
    table: &Option<Text>,
    pen: &mut WriteBuffer,
    out: &mut O,
) -> Result<(), Failed>
    ensures { Buffers (is_ok result) (O.told out.old) (O.told out.new) (waiting pen.old) (waiting pen.new) (32 ∷ parts server.now (store_text table.now ∷ [])) }
{
    match print_field(server, pen, out) {
        Ok(()) => print_store(table, pen, out),
        Err(failed) => Err(failed),
    }
}

// What stands behind a deployment fault's number.
fn print_deploy_text<O: Sink>(
    fault: &DeployFault,
    pen: &mut WriteBuffer,
    out: &mut O,
) -> Result<(), Failed>
    ensures { Buffers (is_ok result) (O.told out.old) (O.told out.new) (waiting pen.old) (waiting pen.new) (spaced (deploy_text fault.now)) }
{
    match fault {
        DeployFault::Syntax { at } => print_place(*at, pen, out),
        DeployFault::Duplicate { name } => print_spaced(name, pen, out),
        DeployFault::Unknown { name } => print_spaced(name, pen, out),
        DeployFault::FractionalType { at } => print_place(*at, pen, out),
        DeployFault::BadOption { at } => print_place(*at, pen, out),
        DeployFault::NoConnection { server } => print_spaced(server, pen, out),
        DeployFault::WrongKind { name } => print_spaced(name, pen, out),
        DeployFault::Columns { name } => print_spaced(name, pen, out),
        DeployFault::Limit { name, count } => print_counted(name, *count, pen, out),
        DeployFault::BadPattern { table } => print_spaced(table, pen, out),
        DeployFault::BadCell {
            server,
            table,
            row,
            col,
        } => print_bad_cell(server, table, *row, *col, pen, out),
        DeployFault::BadStore { server, table } => print_bad_store(server, table, pen, out),
        DeployFault::Astray {
            server,
            epoch,
            ours,
        } => print_measured(server, *epoch, *ours, pen, out),
        DeployFault::Body { name, number } => print_counted(name, *number, pen, out),
        DeployFault::JournalFull => Ok(()),
    }
}

// A word and a number.
fn print_head<O: Sink>(
    word: &str,
    number: u64,
    pen: &mut WriteBuffer,
    out: &mut O,
) -> Result<(), Failed>
    ensures { Buffers (is_ok result) (O.told out.old) (O.told out.new) (waiting pen.old) (waiting pen.new) (word.now ++ 32 ∷ number_text number) }
{
    match print_word(word, pen, out) {
        Ok(()) => print_count(number, pen, out),
        Err(failed) => Err(failed),
    }
}

fn print_refusal<O: Sink>(
    refusal: &Refusal,
    pen: &mut WriteBuffer,
    out: &mut O,
) -> Result<(), Failed>
    ensures { Buffers (is_ok result) (O.told out.old) (O.told out.new) (waiting pen.old) (waiting pen.new) (refusal_line refusal.now) }
{
    match print_head("REFUSED", refusal_number(refusal), pen, out) {
        Ok(()) => {}
        Err(failed) => return Err(failed),
    }
    match print_refusal_text(refusal, pen, out) {
        Ok(()) => print_byte(b'\n', pen, out),
        Err(failed) => Err(failed),
    }
}

fn print_deploy_fault<O: Sink>(
    fault: &DeployFault,
    pen: &mut WriteBuffer,
    out: &mut O,
) -> Result<(), Failed>
    ensures { Buffers (is_ok result) (O.told out.old) (O.told out.new) (waiting pen.old) (waiting pen.new) (deploy_line fault.now) }
{
    match print_head("DEPLOY", deploy_number(fault), pen, out) {
        Ok(()) => {}
        Err(failed) => return Err(failed),
    }
    match print_deploy_text(fault, pen, out) {
        Ok(()) => print_byte(b'\n', pen, out),
        Err(failed) => Err(failed),
    }
}

// A word and the end of the line.
fn print_ended<O: Sink>(word: &[u8], pen: &mut WriteBuffer, out: &mut O) -> Result<(), Failed>
    ensures { Buffers (is_ok result) (O.told out.old) (O.told out.new) (waiting pen.old) (waiting pen.new) (line word.now) }
{
    match pen.write(word, out) {
        Ok(()) => print_byte(b'\n', pen, out),
        Err(failed) => Err(failed),
    }
}

// A word, a name and the end of the line.
fn print_name_line<O: Sink>(
    word: &[u8],
    name: &Text,
    pen: &mut WriteBuffer,
    out: &mut O,
) -> Result<(), Failed>
    ensures { Buffers (is_ok result) (O.told out.old) (O.told out.new) (waiting pen.old) (waiting pen.new) (line (word.now ++ name_text name.now)) }
{
    match pen.write(word, out) {
        Ok(()) => {}
        Err(failed) => return Err(failed),
    }
    match print_name(name, pen, out) {
        Ok(()) => print_byte(b'\n', pen, out),
        Err(failed) => Err(failed),
    }
}

fn print_any_reply<O: Sink>(reply: &Reply, pen: &mut WriteBuffer, out: &mut O) -> Result<(), Failed>
    ensures { Buffers (is_ok result) (O.told out.old) (O.told out.new) (waiting pen.old) (waiting pen.new) (reply_text reply.now) }
{
    match reply {
        Reply::Rows { names, rows } => print_table(names.as_slice(), rows.as_slice(), pen, out),
        Reply::Updated(count) => print_number_line(b"UPDATED ".as_slice(), *count, pen, out),
        Reply::Done => print_ended(b"DONE".as_slice(), pen, out),
        Reply::Started => print_ended(b"STARTED".as_slice(), pen, out),
        Reply::Committed => print_ended(b"COMMITTED".as_slice(), pen, out),
        Reply::RolledBack => print_ended(b"ROLLED BACK".as_slice(), pen, out),
        Reply::Asked { asks, count } => print_asked(asks.as_slice(), *count, pen, out),
        Reply::Refused(refusal) => print_refusal(refusal, pen, out),
        Reply::Memory => print_ended(b"MEMORY".as_slice(), pen, out),
    }
}

/// Prints the lines of a reply.
pub fn print_reply<O: Sink>(reply: &Reply, out: &mut O) -> Result<(), Failed>
    ensures { Prints (is_ok result) (O.told out.old) (O.told out.new) (reply_text reply.now) }
{
    let mut pen = WriteBuffer::new();
    match print_any_reply(reply, &mut pen, out) {
        Ok(()) => pen.flush(out),
        Err(failed) => Err(failed),
    }
}

/// Prints the line of a fault of the deployment.
pub fn print_deploy<O: Sink>(fault: &DeployFault, out: &mut O) -> Result<(), Failed>
    ensures { Prints (is_ok result) (O.told out.old) (O.told out.new) (deploy_line fault.now) }
{
    let mut pen = WriteBuffer::new();
    match print_deploy_fault(fault, &mut pen, out) {
        Ok(()) => pen.flush(out),
        Err(failed) => Err(failed),
    }
}

/// Prints a line that is a word.
pub fn print_line<O: Sink>(word: &[u8], out: &mut O) -> Result<(), Failed>
    ensures { Prints (is_ok result) (O.told out.old) (O.told out.new) (line word.now) }
{
    let mut pen = WriteBuffer::new();
    match print_ended(word, &mut pen, out) {
        Ok(()) => pen.flush(out),
        Err(failed) => Err(failed),
    }
}

/// Prints a line that is a word and a number, with nothing between them.
pub fn print_numbered<O: Sink>(word: &[u8], number: u64, out: &mut O) -> Result<(), Failed>
    ensures { Prints (is_ok result) (O.told out.old) (O.told out.new) (line (word.now ++ number_text number)) }
{
    let mut pen = WriteBuffer::new();
    match print_number_line(word, number, &mut pen, out) {
        Ok(()) => pen.flush(out),
        Err(failed) => Err(failed),
    }
}

/// Prints a line that is a word and a name, with nothing between them.
pub fn print_named<O: Sink>(word: &[u8], name: &Text, out: &mut O) -> Result<(), Failed>
    ensures { Prints (is_ok result) (O.told out.old) (O.told out.new) (line (word.now ++ name_text name.now)) }
{
    let mut pen = WriteBuffer::new();
    match print_name_line(word, name, &mut pen, out) {
        Ok(()) => pen.flush(out),
        Err(failed) => Err(failed),
    }
}
