//! What holds of each table that is read in blocks or in pieces.

ghost use Rattle.oim_decode.specs.Laws.{SameTwice};
ghost use Rattle.oim_decode.specs.PieceAnswers.{PieceIsRead};
ghost use Rattle.oim_decode.specs.Pieces.{FileInPieces, PieceThenRest, RowsInPieces};

/// Proves that a table that has answered the end or a fault answers the same at the next call, and
/// does not change.
///
/// It speaks of two calls of `TableBlocks::next_block`, over any reader.
pub fn settled_tables_stay()
    ensures { SameTwice }
{}

/// Proves that the rows of a table, cut into pieces anywhere, give the stream of the rows.
///
/// Each piece is decoded without the earlier rows, and joined to them by its identifiers.
pub fn rows_in_pieces()
    ensures pieces { RowsInPieces }
    ensures first { PieceThenRest }
{}

/// Proves the same for the bytes of a table's file.
///
/// The file is cut anywhere between two records after its byte-order mark. Its header has no fault
/// and is in the first piece.
pub fn file_in_pieces()
    ensures { FileInPieces }
{}

/// Proves that a decoded and joined piece is read from the stream: first its rows, then what is
/// left after them, unless memory ran out.
///
/// It speaks of a call of `PieceDecoder::decode` and one of `PieceJoin::join`.
pub fn joined_pieces_are_read()
    ensures { PieceIsRead }
{}
