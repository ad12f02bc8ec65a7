//! Arguments of moves.

use crate::frame::{ArgumentFrame, ArgumentKind, ListFrame, MoveFrame};
use crate::misfit::{Misfit, tree_of};
use crate::turn_ends::ends_turn;
use crate::types::{Known, TypeText, item_kind};
use game_file::{FileNames, GameFile, MoveMember, Source, Unread, is_taken};
use game_sheet::{Args, List, MoveId, Sheet, Text};
use game_slots::{Count, Items, SlotRow, value_fits};
use game_syntax::{FaultName, Form, Id, Many, Node, Shape, Span, Tree};
use slot_values::Value;
use std::alloc::Global;

/// What each move of a sheet is given.
pub(crate) fn moves_of(
    alloc: Global,
    file: &GameFile,
    sheet: &Sheet,
    known: &Known<'_>,
) -> Result<List<MoveFrame>, Unread> {
    let mut frames = List::new(alloc);
    for (place, row) in file.flow.moves.as_slice().iter().enumerate() {
        let ends_turn = ends_turn(sheet, MoveId::at(small(place)));
        frames.push(move_of(alloc, row, &file.names, known, ends_turn)?)?;
    }
    Ok(frames)
}

fn move_of(
    alloc: Global,
    row: &MoveMember,
    names: &FileNames,
    known: &Known<'_>,
    ends_turn: bool,
) -> Result<MoveFrame, Unread> {
    let mut frame = MoveFrame {
        arguments: List::new(alloc),
        lists: List::new(alloc),
        ends_turn,
    };
    for (place, source) in row.args.as_slice().iter().enumerate() {
        add_text(alloc, &mut frame, source, place, names, known)?;
    }
    Ok(frame)
}

/// Adds the arguments of a text.
fn add_text(
    alloc: Global,
    frame: &mut MoveFrame,
    source: &Source,
    place: usize,
    names: &FileNames,
    known: &Known<'_>,
) -> Result<(), Unread> {
    let tree = tree_of(alloc, Form::Arguments, source)?;
    let first = frame.arguments.len();
    let reading = Arguments {
        alloc,
        names,
        source,
        tree: &tree,
        known,
    };
    match reading.add_all(&mut frame.arguments) {
        Ok(None) => {
            drop(tree);
            Ok(())
        }
        Ok(Some(list)) => add_list(frame, tree, list, first, place),
        Err(unread) => {
            drop(tree);
            Err(unread)
        }
    }
}

/// Adds that the arguments from a place on are in a list.
fn add_list(
    frame: &mut MoveFrame,
    tree: Tree,
    list: Id,
    first: usize,
    place: usize,
) -> Result<(), Unread> {
    let past = frame.arguments.len();
    Ok(
        frame.lists.push(ListFrame {
            first: small(first),
            past: small(past),
            text: small(place),
            tree,
            list,
        })?,
    )
}

/// A place in a short list.
fn small(place: usize) -> u8 {
    u8::try_from(place).unwrap_or(u8::MAX)
}

/// What the arguments of one text are read by.
#[derive(Clone, Copy)]
struct Arguments<'a> {
    alloc: Global,
    names: &'a FileNames,
    source: &'a Source,
    tree: &'a Tree,
    known: &'a Known<'a>,
}

/// An argument as it is written.
#[derive(Clone, Copy)]
struct Written {
    name: Span,
    kind: ArgumentKind,
}

impl Arguments<'_> {
    fn text(&self) -> TypeText<'_> {
        TypeText {
            text: self.source.text.as_str(),
            tree: self.tree,
            known: *self.known,
        }
    }

    fn told(&self, misfit: Misfit) -> Unread {
        misfit.told(self.alloc, self.source)
    }

    /// Adds the arguments of the text; where they are in a list, the list's node is given.
    fn add_all(&self, arguments: &mut List<ArgumentFrame>) -> Result<Option<Id>, Unread> {
        match self.text().node(self.tree.root) {
            Ok(node) => self.add_node(arguments, node),
            Err(misfit) => Err(self.told(misfit)),
        }
    }

    fn add_node(
        &self,
        arguments: &mut List<ArgumentFrame>,
        node: Node,
    ) -> Result<Option<Id>, Unread> {
        match node.shape {
            Shape::Offer(argument, offers) => unlisted(self.add(arguments, argument, Some(offers))),
            Shape::InList(all, list) => match self.add_listed(arguments, all, node.at) {
                Ok(()) => Ok(Some(list)),
                Err(unread) => Err(unread),
            },
            _ => unlisted(self.add(arguments, self.tree.root, None)),
        }
    }

    /// Adds arguments in a list.
    fn add_listed(
        &self,
        arguments: &mut List<ArgumentFrame>,
        all: Many,
        at: usize,
    ) -> Result<(), Unread> {
        let first = arguments.len();
        for id in self.tree.many(all) {
            self.add(arguments, *id, None)?;
        }
        match numbers_fit(arguments.as_slice(), first, self.known.most_seats, at) {
            Ok(()) => Ok(()),
            Err(misfit) => Err(self.told(misfit)),
        }
    }

    /// Adds an argument.
    fn add(
        &self,
        arguments: &mut List<ArgumentFrame>,
        id: Id,
        offers: Option<Many>,
    ) -> Result<(), Unread> {
        let argument = self.argument(arguments.as_slice(), id, offers)?;
        Ok(arguments.push(argument)?)
    }

    fn argument(
        &self,
        earlier: &[ArgumentFrame],
        id: Id,
        offers: Option<Many>,
    ) -> Result<ArgumentFrame, Unread> {
        match self.written(earlier, id) {
            Ok(written) => self.argument_of(written, offers),
            Err(misfit) => Err(self.told(misfit)),
        }
    }

    fn argument_of(&self, written: Written, offers: Option<Many>) -> Result<ArgumentFrame, Unread> {
        let name = Text::from_str(self.alloc, self.letters(written.name))?;
        let offered = self.offered(written.kind, offers)?;
        Ok(ArgumentFrame {
            name,
            kind: written.kind,
            offered,
        })
    }

    /// The name and the range of an argument behind earlier ones.
    fn written(&self, earlier: &[ArgumentFrame], id: Id) -> Result<Written, Misfit> {
        let (name, range) = self.name_and_range(id)?;
        self.check_name(earlier, name)?;
        let kind = self.text().range(range)?;
        Ok(Written { name, kind })
    }

    fn name_and_range(&self, id: Id) -> Result<(Span, Id), Misfit> {
        match self.tree.node(id) {
            Some(node) => match node.shape {
                Shape::Argument(name, range) => Ok((name, range)),
                _ => Err(Misfit::shape(node.at)),
            },
            None => Err(Misfit::shape(0)),
        }
    }

    fn check_name(&self, earlier: &[ArgumentFrame], name: Span) -> Result<(), Misfit> {
        if earlier.len() >= Args::MOST {
            return Err(Misfit::new(
                FaultName::TooMany,
                name.from,
                "a move has at most 8 arguments",
            ));
        }
        if earlier
            .iter()
            .any(|argument| argument.name.is(self.letters(name)))
        {
            return Err(Misfit::new(
                FaultName::NameTaken,
                name.from,
                "an earlier argument has this name",
            ));
        }
        if is_taken(self.names, self.letters(name)) {
            return Err(Misfit::new(
                FaultName::NameTaken,
                name.from,
                "a constant, a slot of `common` or `work`, or named code has this name",
            ));
        }
        Ok(())
    }

    fn letters(&self, name: Span) -> &str {
        match self.source.text.as_bytes().get(name.from..name.past) {
            Some(bytes) => std::str::from_utf8(bytes).unwrap_or(""),
            None => "",
        }
    }

    fn offered(&self, kind: ArgumentKind, offers: Option<Many>) -> Result<Option<Items>, Unread> {
        match offers {
            None => Ok(None),
            Some(offers) => Ok(Some(self.offers(kind, offers)?)),
        }
    }

    fn offers(&self, kind: ArgumentKind, offers: Many) -> Result<Items, Unread> {
        let mut items = Items::new(self.alloc);
        for id in self.tree.many(offers) {
            match self.offer(kind, *id) {
                Ok(value) => items.push(&value)?,
                Err(misfit) => return Err(self.told(misfit)),
            }
        }
        Ok(items)
    }

    /// A value that is offered.
    fn offer(&self, kind: ArgumentKind, id: Id) -> Result<Value, Misfit> {
        let text = self.text();
        match text.literal(id) {
            Ok(value) if value_fits(&offer_row(kind, self.known.most_seats), &value) => Ok(value),
            Ok(_) => Err(Misfit::new(
                FaultName::StartOutsideRange,
                text.at(id),
                "what is offered is one of the argument's range",
            )),
            Err(misfit) => Err(misfit),
        }
    }
}

/// What came of an argument that is in no list.
fn unlisted(added: Result<(), Unread>) -> Result<Option<Id>, Unread> {
    match added {
        Ok(()) => Ok(None),
        Err(unread) => Err(unread),
    }
}

/// A slot that may hold what an argument may be.
fn offer_row(kind: ArgumentKind, most_seats: u8) -> SlotRow {
    SlotRow {
        kind: item_kind(kind, most_seats),
        null: false,
        start: None,
        begin: Count::Fixed(1),
        most: 1,
        lone: true,
    }
}

/// Whether the number of the arguments from a place on has 32 bits.
fn numbers_fit(
    arguments: &[ArgumentFrame],
    first: usize,
    most_seats: u8,
    at: usize,
) -> Result<(), Misfit> {
    let mut product = 1;
    for argument in arguments.iter().skip(first) {
        product = product_with(product, argument.kind, most_seats, at)?;
    }
    Ok(())
}

fn product_with(
    product: i64,
    kind: ArgumentKind,
    most_seats: u8,
    at: usize,
) -> Result<i64, Misfit> {
    match sizes_product(product, size(kind, most_seats, at)?) {
        Some(product) => Ok(product),
        None => Err(Misfit::new(
            FaultName::OutOfRange,
            at,
            "the ranges of arguments in a list have more rows than a number of 32 bits counts",
        )),
    }
}

/// The product of two sizes, if it has 32 bits.
fn sizes_product(one: i64, other: i64) -> Option<i64> {
    let product = one.checked_mul(other)?;
    if product <= i64::from(i32::MAX) {
        Some(product)
    } else {
        None
    }
}

/// How many values an argument of a list has.
fn size(kind: ArgumentKind, most_seats: u8, at: usize) -> Result<i64, Misfit> {
    match kind {
        ArgumentKind::Number { least, greatest } => Ok(
            i64::from(greatest)
                .saturating_sub(i64::from(least))
                .saturating_add(1),
        ),
        ArgumentKind::Seat => Ok(i64::from(most_seats)),
        ArgumentKind::Text => Err(Misfit::new(
            FaultName::Syntax,
            at,
            "arguments in a list are numbers or seats",
        )),
    }
}
