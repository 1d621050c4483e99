// Which call a line asks for: one of a kind of calls that are made alike, or one that is alone.
use crate::read;

// Those at a key of a node.
#[derive(Clone, Copy)]
pub enum Key {
    Write,
    Delete,
    DeleteTtl,
    Get,
    List,
}

// Those on a table that take numbers alone.
#[derive(Clone, Copy)]
pub enum Plain {
    Add,
    Remove,
    Removed,
    Beat,
    Offer,
    Gc,
}

// Those of the desk itself.
#[derive(Clone, Copy)]
pub enum Shelf {
    New,
    Make,
    Hub,
    Table,
    Dump,
}

// Those of an exchange that take bytes.
#[derive(Clone, Copy)]
pub enum Exchange {
    ReadDigest,
    ReadDelta,
    Compute,
    Plan,
    PlanFault,
    Apply,
    Leave,
}

// Those at a key of overrides.
#[derive(Clone, Copy)]
pub enum Label {
    Write,
    Delete,
    DeleteTtl,
}

// The readings over overrides and a table.
#[derive(Clone, Copy)]
pub enum Over {
    Get,
    List,
}

// Those on a grid that name a peer or a node, or give a time.
#[derive(Clone, Copy)]
pub enum Peers {
    Add,
    Remove,
    TakeOut,
    Least,
    Told,
    Careful,
    Tell,
}

// Those on a grid.
#[derive(Clone, Copy)]
pub enum Grid {
    New,
    Take,
    Dump,
    Peers(Peers),
}

#[derive(Clone, Copy)]
pub enum Verb {
    Key(Key),
    Plain(Plain),
    Shelf(Shelf),
    Digest,
    Exchange(Exchange),
    Overrides,
    Label(Label),
    GcLabels,
    Over(Over),
    Grid(Grid),
    Kind,
    Party,
}

// The call that the name stands for, and how many words its line has.
fn named(name: &[u8]) -> Option<(Verb, usize)> {
    match name {
        b"write" => Some((Verb::Key(Key::Write), 6)),
        b"delete" => Some((Verb::Key(Key::Delete), 4)),
        b"deletettl" => Some((Verb::Key(Key::DeleteTtl), 4)),
        b"get" => Some((Verb::Key(Key::Get), 3)),
        b"list" => Some((Verb::Key(Key::List), 4)),
        b"add" => Some((Verb::Plain(Plain::Add), 2)),
        b"remove" => Some((Verb::Plain(Plain::Remove), 2)),
        b"removed" => Some((Verb::Plain(Plain::Removed), 2)),
        b"beat" => Some((Verb::Plain(Plain::Beat), 2)),
        b"offer" => Some((Verb::Plain(Plain::Offer), 3)),
        b"gc" => Some((Verb::Plain(Plain::Gc), 3)),
        b"new" => Some((Verb::Shelf(Shelf::New), 1)),
        b"make" => Some((Verb::Shelf(Shelf::Make), 2)),
        b"hub" => Some((Verb::Shelf(Shelf::Hub), 2)),
        b"table" => Some((Verb::Shelf(Shelf::Table), 2)),
        b"dump" => Some((Verb::Shelf(Shelf::Dump), 1)),
        b"digest" => Some((Verb::Digest, 5)),
        b"readdigest" => Some((Verb::Exchange(Exchange::ReadDigest), 3)),
        b"readdelta" => Some((Verb::Exchange(Exchange::ReadDelta), 2)),
        b"compute" => Some((Verb::Exchange(Exchange::Compute), 8)),
        b"plan" => Some((Verb::Exchange(Exchange::Plan), 9)),
        b"planfault" => Some((Verb::Exchange(Exchange::PlanFault), 7)),
        b"apply" => Some((Verb::Exchange(Exchange::Apply), 4)),
        b"overrides" => Some((Verb::Overrides, 2)),
        b"label" => Some((Verb::Label(Label::Write), 5)),
        b"unlabel" => Some((Verb::Label(Label::Delete), 3)),
        b"unlabelttl" => Some((Verb::Label(Label::DeleteTtl), 3)),
        b"gclabels" => Some((Verb::GcLabels, 3)),
        b"getover" => Some((Verb::Over(Over::Get), 4)),
        b"listover" => Some((Verb::Over(Over::List), 5)),
        b"newgrid" => Some((Verb::Grid(Grid::New), 1)),
        b"grid" => Some((Verb::Grid(Grid::Take), 2)),
        b"dumpgrid" => Some((Verb::Grid(Grid::Dump), 1)),
        b"gridadd" => Some((Verb::Grid(Grid::Peers(Peers::Add)), 2)),
        b"gridremove" => Some((Verb::Grid(Grid::Peers(Peers::Remove)), 2)),
        b"takeout" => Some((Verb::Grid(Grid::Peers(Peers::TakeOut)), 2)),
        b"least" => Some((Verb::Grid(Grid::Peers(Peers::Least)), 2)),
        b"told" => Some((Verb::Grid(Grid::Peers(Peers::Told)), 3)),
        b"careful" => Some((Verb::Grid(Grid::Peers(Peers::Careful)), 3)),
        b"tell" => Some((Verb::Grid(Grid::Peers(Peers::Tell)), 4)),
        b"kind" => Some((Verb::Kind, 3)),
        b"party" => Some((Verb::Party, 2)),
        b"leave" => Some((Verb::Exchange(Exchange::Leave), 5)),
        _ => None,
    }
}

// The call of the line. One with another count of words than its call has asks for none.
pub fn asked(line: &[u8]) -> Option<Verb> {
    let (verb, words) = named(read::word(line, 0))?;
    if read::words_of(line) != words {
        return None;
    }
    Some(verb)
}
