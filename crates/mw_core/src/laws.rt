//! States that a book (a tenant's open file) and its file token (the ghost capability to call it) agree after each
//! opening and call.
//!
//! Nothing calls these empty functions. Their contracts are the facts, defined in `specs/Books` and proved in
//! `proofs/Agreement`, which proofs of mw_engine cite (`proofs/OpenedParts`): a fact changes with all three.
ghost use Rattle.mw_core.specs.Books.{BooksFollowFileTokens, BooksTakeCalls, OpenedBooksAgree, UnopenedBooksAgree};

use mw_disk::Disk;

/// If a call starts by a file token, it may be made on a book that agrees with the token. After the call the book
/// agrees with the token after it. By the answer, that is the token after a call that was made, or after one in which
/// the device failed, or the same token.
pub fn books_follow_file_tokens<D: Disk>()
    ensures start { BooksTakeCalls D.facts }
    ensures after { BooksFollowFileTokens D.facts }
{}

/// The book of a file that just opened agrees with the file token that there is then. So does the book of a file that
/// didn't open.
pub fn new_books_agree<D: Disk>()
    ensures opened { OpenedBooksAgree D.facts }
    ensures unopened { UnopenedBooksAgree D.facts }
{}
