//! What a host keeps of each flow beside its record.
ghost use Rattle.std.specs.Prelude.{◌≡◌, ℕ, ◌<◌, ◌≤◌, ◌+◌, ◌++◌, ◌∷◌, [], map, drop, length, position, slice_get, Some};
ghost use Rattle.std.specs.Prelude.{OnOk};
ghost use Rattle.flow_lock.specs.Orders.{same_flow};
ghost use Rattle.flow_lock.specs.Words.{flag};
ghost use Rattle.core_host.specs.declared.books.Book as code;
ghost use Rattle.host_books.specs.Books as host_books;
ghost use Rattle.host_books.specs.Books.{IsAt};
ghost use Rattle.host_books.specs.Deeds.{with_holder};
ghost use Rattle.host_rounds.specs.Hosts as hosts;
ghost use Rattle.host_rounds.specs.Hosts.{is_held_by};
ghost use Rattle.sound_hosts.specs.Hosts.{is_holder as is_holder_of};
ghost use Rattle.sound_hosts.specs.Leaving.{reheld, has_flow as is_flow_of, left_by, books_left};
ghost use Rattle.sound_hosts.specs.Opening.{new_book};
ghost use Rattle.sound_turns.specs.Passing.{swept_book};
ghost use Rattle.core_host.specs.Books.{holder_of, book_of, is_first, kept_where, kept_by};

use app_reaper::PinList;
use std::alloc::{AllocError, Global};
use std::marker::Model;
use tas_model::FlowId;

/// Who has the socket of a flow.
#[derive(Clone, Copy, Debug, Drop)]
pub(crate) enum Holder {
    /// Nobody yet: the flow waits for an Accept.
    Waiting,
    /// The application with this number.
    Application(u32),
    /// Nobody any more.
    GivenUp,
}

/// A flow that the host opened.
#[derive(Clone, Copy, Debug, Drop)]
pub(crate) struct Book {
    pub(crate) id: FlowId,
    /// The index leads frames of its four-tuple to it.
    pub(crate) indexed: bool,
    pub(crate) holder: Holder,
    /// Its record was filed, and its slot is free again.
    pub(crate) filed: bool,
}

/// The books of all flows, in the order of their opening.
#[derive(Drop)]
pub(crate) struct Books {
    books: Vec<Book>,
}

impl Model for Books {
    ghost use Rattle.std.specs.Prelude.{List, map};
    ghost use Rattle.host_books.specs.Books as host_books;
    ghost use Rattle.core_host.specs.Books.{book_of};

    ghost Value = { List host_books.Book };

    ghost view = { λ b. map book_of b.books.items };
}

impl Books {
    /// No book. It takes no memory.
    pub(crate) fn new(alloc: Global) -> Books
        ensures { result ≡ [] }
    {
        Books {
            books: Vec::new(alloc),
        }
    }

    pub(crate) fn len(&self) -> usize
        ensures { result ≡ length self.now }
    {
        self.books.len()
    }

    /// The flow at place `i`.
    pub(crate) fn id(&self, i: usize) -> FlowId
        requires { i < length self.now }
        ensures { (b : host_books.Book) → slice_get self.now i ≡ Some b → b.id ≡ result }
    {
        self.books[i].id
    }

    /// The place of this flow.
    pub(crate) fn place_of(&self, id: FlowId) -> Option<usize>
        ensures { result ≡ position (λ (b : host_books.Book). same_flow b.id id) self.now }
    {
        place_in(&self.books, id)
    }

    /// Whether the index has the flow at place `i`.
    pub(crate) fn is_indexed(&self, i: usize) -> bool
        requires { i < length self.now }
        ensures { (b : host_books.Book) → slice_get self.now i ≡ Some b → result ≡ b.indexed }
    {
        self.books[i].indexed
    }

    /// A flow more, which was opened just now. The error is want of memory, and then there is none.
    pub(crate) fn open(&mut self, id: FlowId, holder: Holder) -> Result<(), AllocError>
        ensures { OnOk result (self.new ≡ self.old ++ new_book id (holder_of holder) ∷ []) }
    {
        let book = Book {
            id,
            indexed: true,
            holder,
            filed: false,
        };
        self.books.push(book)?;
        Ok(())
    }

    /// The socket of the flow at place `i` changes hands.
    pub(crate) fn hold(&mut self, i: usize, holder: Holder)
        requires { i < length self.old }
        ensures { self.new ≡ with_holder i (λ (x : hosts.Holder). holder_of holder) self.old }
    {
        self.books[i].holder = holder;
    }

    /// The time of a tick passed: the index has those flows whose pins these are, which stand in the order of their
    /// opening, and no others. The record of each other was filed, unless an application has its socket.
    pub(crate) fn keep(&mut self, pins: &PinList)
        ensures { self.new ≡ kept_by pins.now.list self.old }
    {
        keep_all(&mut self.books, pins);
    }
}

/// The place of the book of this flow.
fn place_in(books: &Vec<Book>, id: FlowId) -> Option<usize>
    ensures { result ≡ position (λ (b : code.Book). same_flow b.id id) books.now.items }
{
    books.iter().position(|book| is_same(book.id, id))
}

fn keep_all(books: &mut Vec<Book>, pins: &PinList)
    ensures { map book_of books.new.items ≡ kept_by pins.now.list (map book_of books.old.items) }
{
    let mut at = 0;
    for book in books.iter_mut() {
        at = keep_one(book, pins, at);
    }
}

/// The book stays in the index where its pin is the one at this place; the place of the next pin.
fn keep_one(book: &mut Book, pins: &PinList, at: usize) -> usize
    requires { at ≤ length pins.now.list }
    ensures kept { book_of book.new
        ≡ kept_where (is_first (drop at pins.now.list) (book_of book.old)) (book_of book.old) }
    ensures at { result ≡ at + flag (is_first (drop at pins.now.list) (book_of book.old)) }
    ensures near { result ≤ length pins.now.list }
{
    let _pins = pins.len();
    let stays = is_next(*book, pins, at);
    *book = kept(stays, *book);
    at + count_of(stays)
}

/// The book stays in the index, or left it.
fn kept(stays: bool, book: Book) -> Book
    ensures { book_of result ≡ kept_where stays (book_of book) }
{
    if stays {
        book
    } else {
        Book {
            indexed: false,
            filed: !is_held(book.holder),
            ..book
        }
    }
}

fn count_of(stays: bool) -> usize
    ensures { result ≡ flag stays }
{
    if stays { 1 } else { 0 }
}

/// Whether the book is in the index and its pin is the one at this place.
fn is_next(book: Book, pins: &PinList, at: usize) -> bool
    ensures { result ≡ is_first (drop at pins.now.list) (book_of book) }
{
    if at >= pins.len() {
        return false;
    }
    book.indexed && is_same(pins.pin(at).id(), book.id)
}

fn is_same(one: FlowId, other: FlowId) -> bool
    ensures { result ≡ same_flow one other }
{
    one.slot == other.slot && one.generation == other.generation
}

/// Whether an application has the socket.
fn is_held(holder: Holder) -> bool
    ensures { result ≡ is_held_by (holder_of holder) }
{
    matches!(holder, Holder::Application(_))
}

impl Books {
    /// The application gives up the socket of this flow, if it has that.
    pub(crate) fn leave(&mut self, app: u32, id: FlowId)
        ensures { self.new ≡ books_left app (id ∷ []) self.old }
    {
        leave_in(&mut self.books, app, id);
    }
}

fn leave_in(books: &mut Vec<Book>, app: u32, id: FlowId)
    ensures { map book_of books.new.items ≡ map (reheld (left_by app id)) (map book_of books.old.items) }
{
    for book in books.iter_mut() {
        *book = left(*book, app, id);
    }
}

/// The book after the application gave up the socket of this flow.
fn left(book: Book, app: u32, id: FlowId) -> Book
    ensures { book_of result ≡ reheld (left_by app id) (book_of book) }
{
    if has_flow(book, app, id) {
        Book {
            holder: Holder::GivenUp,
            ..book
        }
    } else {
        book
    }
}

/// Whether the book is that of this flow, and the application has its socket.
fn has_flow(book: Book, app: u32, id: FlowId) -> bool
    ensures { result ≡ is_flow_of app id (book_of book) }
{
    is_holder(book.holder, app) && is_same(book.id, id)
}

fn is_holder(holder: Holder, app: u32) -> bool
    ensures { result ≡ is_holder_of app (holder_of holder) }
{
    match holder {
        Holder::Application(number) => number == app,
        Holder::Waiting | Holder::GivenUp => false,
    }
}
