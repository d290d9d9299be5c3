// Rows and lists of rows once more.
ghost use Rattle.std.specs.Prelude.{◌≡◌, IfOk};

use crate::rows::{ApiRow, DeploymentRow, JoinRow, KeyRow, MetaRow, PlanRow, Row, StageRow};
use gw_base::Memory;
use std::alloc::Global;

impl MetaRow {
    /// The same row once more, without memory.
    pub fn copy(&self, _alloc: Global) -> Result<Self, Memory>
        ensures { result ≡ Ok self.now }
    {
        Ok(MetaRow {
            id: self.id,
            version: self.version,
        })
    }
}

impl ApiRow {
    /// The same row once more.
    pub fn copy(&self, alloc: Global) -> Result<Self, Memory>
        ensures { IfOk result (λ other. other ≡ self.now) }
    {
        Ok(ApiRow {
            api: self.api.copy(alloc)?,
            text: self.text,
            source: self.source.copy(alloc)?,
        })
    }
}

impl DeploymentRow {
    /// The same row once more.
    pub fn copy(&self, alloc: Global) -> Result<Self, Memory>
        ensures { IfOk result (λ other. other ≡ self.now) }
    {
        Ok(DeploymentRow {
            api: self.api.copy(alloc)?,
            number: self.number,
            text: self.text,
            source: self.source.copy(alloc)?,
        })
    }
}

impl StageRow {
    /// The same row once more.
    pub fn copy(&self, alloc: Global) -> Result<Self, Memory>
        ensures { IfOk result (λ other. other ≡ self.now) }
    {
        Ok(StageRow {
            api: self.api.copy(alloc)?,
            stage: self.stage.copy(alloc)?,
            deployment: self.deployment,
            vars: self.vars.copy(alloc)?,
            canary: self.canary,
            share: self.share,
            canary_vars: self.canary_vars.copy(alloc)?,
        })
    }
}

impl KeyRow {
    /// The same row once more.
    pub fn copy(&self, alloc: Global) -> Result<Self, Memory>
        ensures { IfOk result (λ other. other ≡ self.now) }
    {
        Ok(KeyRow {
            key: self.key.copy(alloc)?,
            value: self.value.copy(alloc)?,
            enabled: self.enabled,
        })
    }
}

impl PlanRow {
    /// The same row once more.
    pub fn copy(&self, alloc: Global) -> Result<Self, Memory>
        ensures { IfOk result (λ other. other ≡ self.now) }
    {
        Ok(PlanRow {
            plan: self.plan.copy(alloc)?,
            rate: self.rate,
            burst: self.burst,
            tversion: self.tversion,
            qlimit: self.qlimit,
            qoffset: self.qoffset,
            qkind: self.qkind,
            stages: self.stages.copy(alloc)?,
        })
    }
}

impl JoinRow {
    /// The same row once more.
    pub fn copy(&self, alloc: Global) -> Result<Self, Memory>
        ensures { IfOk result (λ other. other ≡ self.now) }
    {
        Ok(JoinRow {
            plan: self.plan.copy(alloc)?,
            key: self.key.copy(alloc)?,
            level: self.level,
            at: self.at,
            tversion: self.tversion,
            pkind: self.pkind,
            pnumber: self.pnumber,
            allowance: self.allowance,
            used: self.used,
            first: self.first,
        })
    }
}

impl Row {
    /// The same row once more.
    pub fn copy(&self, alloc: Global) -> Result<Self, Memory>
        ensures { IfOk result (λ other. other ≡ self.now) }
    {
        match self {
            Row::Meta(row) => Ok(Row::Meta(row.copy(alloc)?)),
            Row::Api(row) => Ok(Row::Api(row.copy(alloc)?)),
            Row::Deployment(row) => Ok(Row::Deployment(row.copy(alloc)?)),
            Row::Stage(row) => Ok(Row::Stage(row.copy(alloc)?)),
            Row::Key(row) => Ok(Row::Key(row.copy(alloc)?)),
            Row::Plan(row) => Ok(Row::Plan(row.copy(alloc)?)),
            Row::Join(row) => Ok(Row::Join(row.copy(alloc)?)),
        }
    }
}

/// A row that can be had once more, for what is done alike in every table.
pub(crate) trait CopyRow: Drop {
    fn copy_row(&self, alloc: Global) -> Result<Self, Memory>
        ensures { IfOk result (λ other. other ≡ self.now) };
}

pub(crate) fn copy_rows<R: CopyRow>(alloc: Global, rows: &[R]) -> Result<Vec<R>, Memory>
    ensures { IfOk result (λ copied. copied.items ≡ rows.now) }
{
    let mut copied = Vec::with_capacity(alloc, rows.len())?;
    for row in rows {
        copied.push(row.copy_row(alloc)?)?;
    }
    Ok(copied)
}

impl CopyRow for MetaRow {
    fn copy_row(&self, alloc: Global) -> Result<Self, Memory> {
        self.copy(alloc)
    }
}

impl CopyRow for ApiRow {
    fn copy_row(&self, alloc: Global) -> Result<Self, Memory> {
        self.copy(alloc)
    }
}

impl CopyRow for DeploymentRow {
    fn copy_row(&self, alloc: Global) -> Result<Self, Memory> {
        self.copy(alloc)
    }
}

impl CopyRow for StageRow {
    fn copy_row(&self, alloc: Global) -> Result<Self, Memory> {
        self.copy(alloc)
    }
}

impl CopyRow for KeyRow {
    fn copy_row(&self, alloc: Global) -> Result<Self, Memory> {
        self.copy(alloc)
    }
}

impl CopyRow for PlanRow {
    fn copy_row(&self, alloc: Global) -> Result<Self, Memory> {
        self.copy(alloc)
    }
}

impl CopyRow for JoinRow {
    fn copy_row(&self, alloc: Global) -> Result<Self, Memory> {
        self.copy(alloc)
    }
}
