ghost use Rattle.std.specs.Prelude.{◌≡◌, ◌<◌, [], All, IfOk, length, vec_len};
ghost use Rattle.ownership.specs.Turning.{AreRows, IsRowOf};

use distill::Distilled;
use mn_base::NoMemory;
use std::alloc::Global;
use std::marker::Model;

/// The pipes at each node of a distilled topology, by their numbers.
#[derive(Debug, Drop)]
pub(crate) struct Incidence<'d> {
    distilled: &'d Distilled,
    rows: Vec<Vec<u32>>,
}

impl<'d> Model for Incidence<'d> {
    ghost use Rattle.distill.specs.Distilled.{DistilledView};
    ghost use Rattle.ownership.specs.Turning.{AreRows, row_lists};

    ghost Value = { DistilledView };

    ghost view = { λ i. i.distilled.now };

    ghost invariant = { λ i. AreRows i.distilled.now (row_lists i.rows.items) };
}

impl<'d> Incidence<'d> {
    /// It takes time and memory in O(nodes + pipes).
    pub(crate) fn new(alloc: Global, distilled: &'d Distilled) -> Result<Incidence<'d>, NoMemory>
        ensures { IfOk result (λ incidence. incidence ≡ distilled.now) }
    {
        let mut rows = empty_rows(alloc, distilled.nodes())?;
        for (number, pipe) in distilled.pipes().iter().enumerate() {
            rows[pipe.from as usize].push(number as u32)?;
            rows[pipe.to as usize].push(number as u32)?;
        }
        Ok(Incidence { distilled, rows })
    }

    /// The numbers of the pipes with this node as an end.
    pub(crate) fn row(&self, node: u32) -> &[u32]
        requires { node < self.now.nodes }
        ensures { IsRowOf self.now.pipes node result.now }
    {
        self.rows[node as usize].as_slice()
    }
}

/// A table of so many empty rows.
fn empty_rows(alloc: Global, count: u32) -> Result<Vec<Vec<u32>>, NoMemory>
    ensures len { IfOk result (λ rows. vec_len rows ≡ count) }
    ensures empty { IfOk result (λ rows. All (λ row. row.items ≡ []) rows.items) }
{
    let mut rows = Vec::new(alloc);
    for _row in 0..count {
        rows.push(Vec::new(alloc))?;
    }
    Ok(rows)
}
