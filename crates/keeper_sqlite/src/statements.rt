// The statements of the store: its schema, and of each table those that write, read, find and delete rows.
ghost use Rattle.std.specs.Prelude.{◌≡◌};
ghost use Rattle.keeper_sqlite.specs.Texts.{upsert_text, rows_text, find_text, delete_text};

use keeper_core::Table;

/// The tables, in the order in which they are loaded.
pub(crate) const TABLES: [Table; 7] = [
    Table::Meta,
    Table::Apis,
    Table::Deployments,
    Table::Stages,
    Table::Keys,
    Table::Plans,
    Table::Joins,
];

/// The schema of a new store, and its row of the table `meta`.
pub(crate) const SCHEMA: &str = "
CREATE TABLE meta (
    id INTEGER PRIMARY KEY,
    version INTEGER NOT NULL
) STRICT;
CREATE TABLE apis (
    api TEXT NOT NULL PRIMARY KEY,
    text INTEGER NOT NULL,
    source TEXT NOT NULL
) STRICT;
CREATE TABLE deployments (
    api TEXT NOT NULL,
    number INTEGER NOT NULL,
    text INTEGER NOT NULL,
    source TEXT NOT NULL,
    PRIMARY KEY (api, number)
) STRICT;
CREATE TABLE stages (
    api TEXT NOT NULL,
    stage TEXT NOT NULL,
    deployment INTEGER NOT NULL,
    vars TEXT NOT NULL,
    canary INTEGER NOT NULL,
    share INTEGER NOT NULL,
    canary_vars TEXT NOT NULL,
    PRIMARY KEY (api, stage)
) STRICT;
CREATE TABLE keys (
    key TEXT NOT NULL PRIMARY KEY,
    value TEXT NOT NULL UNIQUE,
    enabled INTEGER NOT NULL
) STRICT;
CREATE TABLE plans (
    plan TEXT NOT NULL PRIMARY KEY,
    rate INTEGER NOT NULL,
    burst INTEGER NOT NULL,
    tversion INTEGER NOT NULL,
    qlimit INTEGER NOT NULL,
    qoffset INTEGER NOT NULL,
    qkind INTEGER NOT NULL,
    stages TEXT NOT NULL
) STRICT;
CREATE TABLE joins (
    plan TEXT NOT NULL,
    key TEXT NOT NULL,
    level INTEGER NOT NULL,
    at INTEGER NOT NULL,
    tversion INTEGER NOT NULL,
    pkind INTEGER NOT NULL,
    pnumber INTEGER NOT NULL,
    allowance INTEGER NOT NULL,
    used INTEGER NOT NULL,
    first INTEGER NOT NULL,
    PRIMARY KEY (plan, key)
) STRICT;
INSERT INTO meta (id, version) VALUES (0, 1)";

/// Whether the file has any table, or is new.
pub(crate) const ANY_TABLE: &str = "SELECT name FROM sqlite_schema LIMIT 1";

/// Writes a row, new or in the place of the row of its key.
#[tactic(auto, unfolding(crate::specs::Texts::upsert_text))]
pub(crate) fn upsert_into(table: Table) -> &'static str
    ensures { result.now ≡ upsert_text table }
{
    match table {
        Table::Meta =>
            "INSERT INTO meta (id, version) VALUES (?1, ?2) ON CONFLICT (id) DO UPDATE SET version = excluded.version",
        Table::Apis =>
            "INSERT INTO apis (api, text, source) VALUES (?1, ?2, ?3) ON CONFLICT (api) DO UPDATE SET text = excluded.text, source = excluded.source",
        Table::Deployments =>
            "INSERT INTO deployments (api, number, text, source) VALUES (?1, ?2, ?3, ?4) ON CONFLICT (api, number) DO UPDATE SET text = excluded.text, source = excluded.source",
        Table::Stages =>
            "INSERT INTO stages (api, stage, deployment, vars, canary, share, canary_vars) VALUES (?1, ?2, ?3, ?4, ?5, ?6, ?7) ON CONFLICT (api, stage) DO UPDATE SET deployment = excluded.deployment, vars = excluded.vars, canary = excluded.canary, share = excluded.share, canary_vars = excluded.canary_vars",
        Table::Keys =>
            "INSERT INTO keys (key, value, enabled) VALUES (?1, ?2, ?3) ON CONFLICT (key) DO UPDATE SET value = excluded.value, enabled = excluded.enabled",
        Table::Plans =>
            "INSERT INTO plans (plan, rate, burst, tversion, qlimit, qoffset, qkind, stages) VALUES (?1, ?2, ?3, ?4, ?5, ?6, ?7, ?8) ON CONFLICT (plan) DO UPDATE SET rate = excluded.rate, burst = excluded.burst, tversion = excluded.tversion, qlimit = excluded.qlimit, qoffset = excluded.qoffset, qkind = excluded.qkind, stages = excluded.stages",
        Table::Joins =>
            "INSERT INTO joins (plan, key, level, at, tversion, pkind, pnumber, allowance, used, first) VALUES (?1, ?2, ?3, ?4, ?5, ?6, ?7, ?8, ?9, ?10) ON CONFLICT (plan, key) DO UPDATE SET level = excluded.level, at = excluded.at, tversion = excluded.tversion, pkind = excluded.pkind, pnumber = excluded.pnumber, allowance = excluded.allowance, used = excluded.used, first = excluded.first",
    }
}

/// Reads the rows in the order of their keys.
#[tactic(auto, unfolding(crate::specs::Texts::rows_text))]
pub(crate) fn rows_of(table: Table) -> &'static str
    ensures { result.now ≡ rows_text table }
{
    match table {
        Table::Meta => "SELECT id, version FROM meta ORDER BY id",
        Table::Apis => "SELECT api, text, source FROM apis ORDER BY api",
        Table::Deployments =>
            "SELECT api, number, text, source FROM deployments ORDER BY api, number",
        Table::Stages =>
            "SELECT api, stage, deployment, vars, canary, share, canary_vars FROM stages ORDER BY api, stage",
        Table::Keys => "SELECT key, value, enabled FROM keys ORDER BY key",
        Table::Plans =>
            "SELECT plan, rate, burst, tversion, qlimit, qoffset, qkind, stages FROM plans ORDER BY plan",
        Table::Joins =>
            "SELECT plan, key, level, at, tversion, pkind, pnumber, allowance, used, first FROM joins ORDER BY plan, key",
    }
}

/// Reads the row of a key.
#[tactic(auto, unfolding(crate::specs::Texts::find_text))]
pub(crate) fn find_in(table: Table) -> &'static str
    ensures { result.now ≡ find_text table }
{
    match table {
        Table::Meta => "SELECT id, version FROM meta WHERE id = ?1",
        Table::Apis => "SELECT api, text, source FROM apis WHERE api = ?1",
        Table::Deployments =>
            "SELECT api, number, text, source FROM deployments WHERE api = ?1 AND number = ?2",
        Table::Stages =>
            "SELECT api, stage, deployment, vars, canary, share, canary_vars FROM stages WHERE api = ?1 AND stage = ?2",
        Table::Keys => "SELECT key, value, enabled FROM keys WHERE key = ?1",
        Table::Plans =>
            "SELECT plan, rate, burst, tversion, qlimit, qoffset, qkind, stages FROM plans WHERE plan = ?1",
        Table::Joins =>
            "SELECT plan, key, level, at, tversion, pkind, pnumber, allowance, used, first FROM joins WHERE plan = ?1 AND key = ?2",
    }
}

/// Deletes the row of a key.
#[tactic(auto, unfolding(crate::specs::Texts::delete_text))]
pub(crate) fn delete_from(table: Table) -> &'static str
    ensures { result.now ≡ delete_text table }
{
    match table {
        Table::Meta => "DELETE FROM meta WHERE id = ?1",
        Table::Apis => "DELETE FROM apis WHERE api = ?1",
        Table::Deployments => "DELETE FROM deployments WHERE api = ?1 AND number = ?2",
        Table::Stages => "DELETE FROM stages WHERE api = ?1 AND stage = ?2",
        Table::Keys => "DELETE FROM keys WHERE key = ?1",
        Table::Plans => "DELETE FROM plans WHERE plan = ?1",
        Table::Joins => "DELETE FROM joins WHERE plan = ?1 AND key = ?2",
    }
}
