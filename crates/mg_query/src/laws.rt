//! Laws of pages, each the contract of a function that does nothing.
ghost use Rattle.mg_query.specs.Laws.{BookmarksChangeNothingElse, PagesJoin, PagesReadBackJoin};

use mg_bookmark::laws::what_is_spelled_is_read;

/// Pages join. Ask a query first without a bookmark, and then with the bookmark of each page, until a page is empty. If an index serves
/// the query, and the query skips nothing and has a limit of at least 1, then each answer is a page, and together the pages show what the
/// query finds, in order. JSON text must be able to carry the place of each document that the query finds (`CanBeSpelled`): the values of
/// its key nest at most 125 deep, its numbers are i64, its objects have their names in order, and all texts are UTF-8.
pub fn pages_join()
    ensures { PagesJoin }
{
    what_is_spelled_is_read();
}

/// Pages join, whatever the keys and texts, if the bookmark of each document that the query finds is read back as the document's place. The
/// query must meet the conditions that `pages_join` sets for it.
pub fn pages_that_read_back_join()
    ensures { PagesReadBackJoin }
{}

/// Take a body that is read as a query. With another text as its bookmark it is read as the same query with that bookmark, or refused
/// with `BadBookmark` if the text is not a bookmark.
pub fn bookmarks_change_nothing_else()
    ensures { BookmarksChangeNothingElse }
{}
