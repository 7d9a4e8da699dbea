//! The laws of the circular buffer (36.212 5.1.4.1.1, 5.1.4.1.2).
ghost use Rattle.std.specs.Prelude.{◌≡◌, ℕ, ◌+◌, ◌*◌, ◌/◌, ◌%◌, ◌<◌, ◌≤◌, ◌↔◌, None, Some, length, slice_index, slice_index_or};
ghost use Rattle.lte_bits.specs.declared.bit.Cell.{Cell};
ghost use Rattle.lte_bits.specs.declared.block.Block.{Block};
ghost use Rattle.lte_bits.specs.declared.block.Streams.{Streams};
ghost use Rattle.model_sender.specs.CircularBuffer.{AreStreams, buffer_size, column_order, read_place, rows_of, spot, w, y};
ghost use Rattle.model_sender.specs.CodedStreams.{streams};
ghost use Rattle.model_sender.specs.declared.spot.Spot.{Spot};

use lte_bits::Cell;

/// There are 32 columns, and the one that is read at place i has the five bits of i in reverse order.
pub fn columns_are_read_in_bit_reversed_order()
    ensures columns { length column_order ≡ 32 }
    ensures reversed { (i : ℕ) → i < 32 → slice_index column_order i
        ≡ 16 * (i % 2) + 8 * (i / 2 % 2) + 4 * (i / 4 % 2) + 2 * (i / 8 % 2) + i / 16 % 2 }
{}

/// The coded streams of a code block have NULL at its fillers in d0 and d1, and nowhere in d2.
pub fn streams_have_nulls_at_fillers()
    ensures { (b : Block) → b.fill ≤ length b.bits → AreStreams (length b.bits) b.fill (streams b) }
{}

/// The buffer is v0, then v1 and v2 interlaced. Each stream, padded with NULLs in front, is read by columns;
/// d2 one place further on.
pub fn buffer_is_read_by_columns()
    ensures first { (k fill j : ℕ) (s : Streams) → AreStreams k fill s → j < 32 * rows_of k →
        w k fill s j ≡ slice_index_or (y k s.d0) (read_place (rows_of k) j) Cell.Null }
    ensures second { (k fill j : ℕ) (s : Streams) → AreStreams k fill s → j < 32 * rows_of k →
        w k fill s (32 * rows_of k + 2 * j) ≡ slice_index_or (y k s.d1) (read_place (rows_of k) j) Cell.Null }
    ensures third { (k fill j : ℕ) (s : Streams) → AreStreams k fill s → j < 32 * rows_of k →
        w k fill s (32 * rows_of k + 2 * j + 1)
        ≡ slice_index_or (y k s.d2) ((read_place (rows_of k) j + 1) % (32 * rows_of k)) Cell.Null }
{}

/// w is NULL exactly where there is no bit, and a bit there is one of the streams.
pub fn null_stands_where_no_bit_does()
    ensures null { (k fill n : ℕ) (s : Streams) → AreStreams k fill s → n < buffer_size k →
        (w k fill s n ≡ Cell.Null) ↔ (spot k fill n ≡ None) }
    ensures within { (k fill n : ℕ) (p : Spot) → n < buffer_size k → spot k fill n ≡ Some p →
        (p.stream ≤ 2) × (p.index < k + 4) }
{}
