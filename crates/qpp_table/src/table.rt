//! The interleavers of the table (36.212, table 5.1.3-3).
ghost use Rattle.std.specs.Prelude.{◌≡◌, ℕ, ◌==◌, ◌↔◌, find, map, length, IsSome, IfSome, Contains};
ghost use Rattle.std.specs.List.{range_with_len};
ghost use Rattle.model_sender.specs.Interleaver.{sizes, row_of, place};
ghost use Rattle.qpp_table.specs.Qpp.{row_in, size_in, value_at};

use crate::groups::{
    fill_40_to_224, fill_232_to_416, fill_424_to_704, fill_720_to_1152, fill_1184_to_1920,
    fill_1952_to_3328, fill_3392_to_4864, fill_4928_to_6144,
};
use crate::interleaver::Qpp;
use model_sender::{Row, table};

/// Returns the first of some rows that has the size `k`.
fn find_row(rows: &[Row], k: usize) -> Option<Row>
    ensures { result ≡ find (λ row. row.0 == k) rows.now }
{
    rows.iter().copied().find(|row| row.0 == k)
}

/// Returns the interleaver of size `k` (36.212 5.1.3.2.3), and `None` exactly where `k` isn't one of the 188
/// sizes of table 5.1.3-3.
pub fn qpp(k: usize) -> Option<Qpp>
    ensures some { IsSome result ↔ Contains sizes k }
    ensures row { IfSome result (λ q. row_in q ≡ row_of k) }
    ensures size { IfSome result (λ q. size_in q ≡ k) }
    ensures place { IfSome result (λ q. (i : ℕ) → value_at q i ≡ place k i) }
{
    match find_row(table(), k) {
        Some(row) => Some(Qpp::of_row(row)),
        None => None,
    }
}

/// Writes the interleaver addresses of a block, Pi(0) to Pi(K - 1) (36.212 5.1.3.2.3), to `out`. `k` is one
/// of the 188 sizes, and `out` has length `k`. Allocates nothing.
#[tactic(auto, unfolding(crate::specs::Groups::addresses_of))]
pub fn addresses(k: usize, out: &mut [u16])
    requires size { Contains sizes k }
    requires room { length out.old ≡ k }
    ensures { out.new ≡ map (place k) (range_with_len 0 k) }
{
    match k {
        0..=224 => fill_40_to_224(k, out),
        225..=416 => fill_232_to_416(k, out),
        417..=704 => fill_424_to_704(k, out),
        705..=1152 => fill_720_to_1152(k, out),
        1153..=1920 => fill_1184_to_1920(k, out),
        1921..=3328 => fill_1952_to_3328(k, out),
        3329..=4864 => fill_3392_to_4864(k, out),
        _ => fill_4928_to_6144(k, out),
    }
}
