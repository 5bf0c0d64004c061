//! The keywords.
// Written by tools/keywords.py: edit the list of words there.

ghost use Rattle.std.specs.Prelude.{◌≡◌};
ghost use Rattle.sql_keyword.specs.Same.{same_keyword};

use std::fmt;

/// A keyword that begins a statement. Its text is the variant's name in capital letters.
#[derive(Clone, Copy, Debug, PartialEq, Eq)]
pub enum Verb {
    Abort,
    Alter,
    Analyse,
    Analyze,
    Begin,
    Call,
    Checkpoint,
    Close,
    Cluster,
    Comment,
    Commit,
    Copy,
    Create,
    Deallocate,
    Declare,
    Delete,
    Discard,
    Do,
    Drop,
    End,
    Execute,
    Explain,
    Fetch,
    Grant,
    Import,
    Insert,
    Listen,
    Load,
    Lock,
    Merge,
    Move,
    Notify,
    Prepare,
    Reassign,
    Refresh,
    Reindex,
    Release,
    Repack,
    Reset,
    Revoke,
    Rollback,
    Savepoint,
    Select,
    Set,
    Show,
    Start,
    Truncate,
    Unlisten,
    Update,
    Vacuum,
    Values,
    With,
}

/// A keyword that names a kind of object. Its text is the variant's name in capital letters.
#[derive(Clone, Copy, Debug, PartialEq, Eq)]
pub enum Object {
    Access,
    Aggregate,
    Attribute,
    Cast,
    Class,
    Collation,
    Column,
    Configuration,
    Constraint,
    Constraints,
    Conversion,
    Data,
    Database,
    Dictionary,
    Domain,
    Event,
    Extension,
    Family,
    Foreign,
    Function,
    Graph,
    Group,
    Index,
    Language,
    Large,
    Mapping,
    Materialized,
    Method,
    Object,
    Operator,
    Parser,
    Partition,
    Policy,
    Privileges,
    Procedure,
    Property,
    Publication,
    Role,
    Routine,
    Rule,
    Schema,
    Search,
    Sequence,
    Server,
    Statistics,
    Subscription,
    System,
    Table,
    Tablespace,
    Template,
    Text,
    Transform,
    Trigger,
    Type,
    User,
    View,
    Wrapper,
}

/// Any other keyword. Its text is the variant's name in capital letters.
#[derive(Clone, Copy, Debug, PartialEq, Eq)]
pub enum Other {
    Add,
    After,
    All,
    Always,
    And,
    Array,
    As,
    Atomic,
    Authorization,
    Before,
    Bit,
    By,
    Cache,
    Called,
    Cascade,
    Chain,
    Char,
    Character,
    Characteristics,
    Check,
    Collate,
    Compression,
    Concurrently,
    Cost,
    Cycle,
    Default,
    Deferrable,
    Detach,
    Disable,
    Distinct,
    Double,
    Enable,
    Enforced,
    Except,
    Exclude,
    Exclusive,
    Exists,
    Expression,
    External,
    False,
    Finalize,
    For,
    Force,
    Freeze,
    From,
    Full,
    Generated,
    Global,
    Having,
    Identity,
    If,
    Immutable,
    In,
    Increment,
    Inherit,
    Initially,
    Intersect,
    Interval,
    Into,
    Is,
    Key,
    Label,
    Leakproof,
    Level,
    Like,
    Limit,
    Local,
    Logged,
    Matched,
    Maxvalue,
    Minvalue,
    Mode,
    No,
    Not,
    Nowait,
    Null,
    Offset,
    On,
    Only,
    Options,
    Or,
    Order,
    Owned,
    Owner,
    Parallel,
    Precision,
    Prepared,
    Primary,
    Procedural,
    Recursive,
    References,
    Rename,
    Replace,
    Replica,
    Restart,
    Returning,
    Returns,
    Row,
    Rows,
    Security,
    Session,
    Share,
    Stable,
    Storage,
    Strict,
    Support,
    Temp,
    Temporary,
    Then,
    Time,
    Timestamp,
    To,
    Transaction,
    True,
    Trusted,
    Union,
    Unique,
    Unlogged,
    Using,
    Valid,
    Validate,
    Value,
    Varchar,
    Varying,
    Verbose,
    Volatile,
    When,
    Where,
    Window,
    Without,
    Work,
    Zone,
}

/// A keyword of SQL. Each has a constant, whose name is its text.
#[derive(Clone, Copy, PartialEq, Eq)]
pub enum Keyword {
    Verb(Verb),
    Object(Object),
    Other(Other),
}

impl fmt::Debug for Keyword {
    fn fmt<W: fmt::Write>(&self, f: &mut fmt::Formatter<W>) -> fmt::Result {
        match self {
            Keyword::Verb(word) => fmt::Debug::fmt(word, f),
            Keyword::Object(word) => fmt::Debug::fmt(word, f),
            Keyword::Other(word) => fmt::Debug::fmt(word, f),
        }
    }
}

impl Keyword {
    /// ABORT.
    pub const ABORT: Keyword = Keyword::Verb(Verb::Abort);
    /// ACCESS.
    pub const ACCESS: Keyword = Keyword::Object(Object::Access);
    /// ADD.
    pub const ADD: Keyword = Keyword::Other(Other::Add);
    /// AFTER.
    pub const AFTER: Keyword = Keyword::Other(Other::After);
    /// AGGREGATE.
    pub const AGGREGATE: Keyword = Keyword::Object(Object::Aggregate);
    /// ALL.
    pub const ALL: Keyword = Keyword::Other(Other::All);
    /// ALTER.
    pub const ALTER: Keyword = Keyword::Verb(Verb::Alter);
    /// ALWAYS.
    pub const ALWAYS: Keyword = Keyword::Other(Other::Always);
    /// ANALYSE.
    pub const ANALYSE: Keyword = Keyword::Verb(Verb::Analyse);
    /// ANALYZE.
    pub const ANALYZE: Keyword = Keyword::Verb(Verb::Analyze);
    /// AND.
    pub const AND: Keyword = Keyword::Other(Other::And);
    /// ARRAY.
    pub const ARRAY: Keyword = Keyword::Other(Other::Array);
    /// AS.
    pub const AS: Keyword = Keyword::Other(Other::As);
    /// ATOMIC.
    pub const ATOMIC: Keyword = Keyword::Other(Other::Atomic);
    /// ATTRIBUTE.
    pub const ATTRIBUTE: Keyword = Keyword::Object(Object::Attribute);
    /// AUTHORIZATION.
    pub const AUTHORIZATION: Keyword = Keyword::Other(Other::Authorization);
    /// BEFORE.
    pub const BEFORE: Keyword = Keyword::Other(Other::Before);
    /// BEGIN.
    pub const BEGIN: Keyword = Keyword::Verb(Verb::Begin);
    /// BIT.
    pub const BIT: Keyword = Keyword::Other(Other::Bit);
    /// BY.
    pub const BY: Keyword = Keyword::Other(Other::By);
    /// CACHE.
    pub const CACHE: Keyword = Keyword::Other(Other::Cache);
    /// CALL.
    pub const CALL: Keyword = Keyword::Verb(Verb::Call);
    /// CALLED.
    pub const CALLED: Keyword = Keyword::Other(Other::Called);
    /// CASCADE.
    pub const CASCADE: Keyword = Keyword::Other(Other::Cascade);
    /// CAST.
    pub const CAST: Keyword = Keyword::Object(Object::Cast);
    /// CHAIN.
    pub const CHAIN: Keyword = Keyword::Other(Other::Chain);
    /// CHAR.
    pub const CHAR: Keyword = Keyword::Other(Other::Char);
    /// CHARACTER.
    pub const CHARACTER: Keyword = Keyword::Other(Other::Character);
    /// CHARACTERISTICS.
    pub const CHARACTERISTICS: Keyword = Keyword::Other(Other::Characteristics);
    /// CHECK.
    pub const CHECK: Keyword = Keyword::Other(Other::Check);
    /// CHECKPOINT.
    pub const CHECKPOINT: Keyword = Keyword::Verb(Verb::Checkpoint);
    /// CLASS.
    pub const CLASS: Keyword = Keyword::Object(Object::Class);
    /// CLOSE.
    pub const CLOSE: Keyword = Keyword::Verb(Verb::Close);
    /// CLUSTER.
    pub const CLUSTER: Keyword = Keyword::Verb(Verb::Cluster);
    /// COLLATE.
    pub const COLLATE: Keyword = Keyword::Other(Other::Collate);
    /// COLLATION.
    pub const COLLATION: Keyword = Keyword::Object(Object::Collation);
    /// COLUMN.
    pub const COLUMN: Keyword = Keyword::Object(Object::Column);
    /// COMMENT.
    pub const COMMENT: Keyword = Keyword::Verb(Verb::Comment);
    /// COMMIT.
    pub const COMMIT: Keyword = Keyword::Verb(Verb::Commit);
    /// COMPRESSION.
    pub const COMPRESSION: Keyword = Keyword::Other(Other::Compression);
    /// CONCURRENTLY.
    pub const CONCURRENTLY: Keyword = Keyword::Other(Other::Concurrently);
    /// CONFIGURATION.
    pub const CONFIGURATION: Keyword = Keyword::Object(Object::Configuration);
    /// CONSTRAINT.
    pub const CONSTRAINT: Keyword = Keyword::Object(Object::Constraint);
    /// CONSTRAINTS.
    pub const CONSTRAINTS: Keyword = Keyword::Object(Object::Constraints);
    /// CONVERSION.
    pub const CONVERSION: Keyword = Keyword::Object(Object::Conversion);
    /// COPY.
    pub const COPY: Keyword = Keyword::Verb(Verb::Copy);
    /// COST.
    pub const COST: Keyword = Keyword::Other(Other::Cost);
    /// CREATE.
    pub const CREATE: Keyword = Keyword::Verb(Verb::Create);
    /// CYCLE.
    pub const CYCLE: Keyword = Keyword::Other(Other::Cycle);
    /// DATA.
    pub const DATA: Keyword = Keyword::Object(Object::Data);
    /// DATABASE.
    pub const DATABASE: Keyword = Keyword::Object(Object::Database);
    /// DEALLOCATE.
    pub const DEALLOCATE: Keyword = Keyword::Verb(Verb::Deallocate);
    /// DECLARE.
    pub const DECLARE: Keyword = Keyword::Verb(Verb::Declare);
    /// DEFAULT.
    pub const DEFAULT: Keyword = Keyword::Other(Other::Default);
    /// DEFERRABLE.
    pub const DEFERRABLE: Keyword = Keyword::Other(Other::Deferrable);
    /// DELETE.
    pub const DELETE: Keyword = Keyword::Verb(Verb::Delete);
    /// DETACH.
    pub const DETACH: Keyword = Keyword::Other(Other::Detach);
    /// DICTIONARY.
    pub const DICTIONARY: Keyword = Keyword::Object(Object::Dictionary);
    /// DISABLE.
    pub const DISABLE: Keyword = Keyword::Other(Other::Disable);
    /// DISCARD.
    pub const DISCARD: Keyword = Keyword::Verb(Verb::Discard);
    /// DISTINCT.
    pub const DISTINCT: Keyword = Keyword::Other(Other::Distinct);
    /// DO.
    pub const DO: Keyword = Keyword::Verb(Verb::Do);
    /// DOMAIN.
    pub const DOMAIN: Keyword = Keyword::Object(Object::Domain);
    /// DOUBLE.
    pub const DOUBLE: Keyword = Keyword::Other(Other::Double);
    /// DROP.
    pub const DROP: Keyword = Keyword::Verb(Verb::Drop);
    /// ENABLE.
    pub const ENABLE: Keyword = Keyword::Other(Other::Enable);
    /// END.
    pub const END: Keyword = Keyword::Verb(Verb::End);
    /// ENFORCED.
    pub const ENFORCED: Keyword = Keyword::Other(Other::Enforced);
    /// EVENT.
    pub const EVENT: Keyword = Keyword::Object(Object::Event);
    /// EXCEPT.
    pub const EXCEPT: Keyword = Keyword::Other(Other::Except);
    /// EXCLUDE.
    pub const EXCLUDE: Keyword = Keyword::Other(Other::Exclude);
    /// EXCLUSIVE.
    pub const EXCLUSIVE: Keyword = Keyword::Other(Other::Exclusive);
    /// EXECUTE.
    pub const EXECUTE: Keyword = Keyword::Verb(Verb::Execute);
    /// EXISTS.
    pub const EXISTS: Keyword = Keyword::Other(Other::Exists);
    /// EXPLAIN.
    pub const EXPLAIN: Keyword = Keyword::Verb(Verb::Explain);
    /// EXPRESSION.
    pub const EXPRESSION: Keyword = Keyword::Other(Other::Expression);
    /// EXTENSION.
    pub const EXTENSION: Keyword = Keyword::Object(Object::Extension);
    /// EXTERNAL.
    pub const EXTERNAL: Keyword = Keyword::Other(Other::External);
    /// FALSE.
    pub const FALSE: Keyword = Keyword::Other(Other::False);
    /// FAMILY.
    pub const FAMILY: Keyword = Keyword::Object(Object::Family);
    /// FETCH.
    pub const FETCH: Keyword = Keyword::Verb(Verb::Fetch);
    /// FINALIZE.
    pub const FINALIZE: Keyword = Keyword::Other(Other::Finalize);
    /// FOR.
    pub const FOR: Keyword = Keyword::Other(Other::For);
    /// FORCE.
    pub const FORCE: Keyword = Keyword::Other(Other::Force);
    /// FOREIGN.
    pub const FOREIGN: Keyword = Keyword::Object(Object::Foreign);
    /// FREEZE.
    pub const FREEZE: Keyword = Keyword::Other(Other::Freeze);
    /// FROM.
    pub const FROM: Keyword = Keyword::Other(Other::From);
    /// FULL.
    pub const FULL: Keyword = Keyword::Other(Other::Full);
    /// FUNCTION.
    pub const FUNCTION: Keyword = Keyword::Object(Object::Function);
    /// GENERATED.
    pub const GENERATED: Keyword = Keyword::Other(Other::Generated);
    /// GLOBAL.
    pub const GLOBAL: Keyword = Keyword::Other(Other::Global);
    /// GRANT.
    pub const GRANT: Keyword = Keyword::Verb(Verb::Grant);
    /// GRAPH.
    pub const GRAPH: Keyword = Keyword::Object(Object::Graph);
    /// GROUP.
    pub const GROUP: Keyword = Keyword::Object(Object::Group);
    /// HAVING.
    pub const HAVING: Keyword = Keyword::Other(Other::Having);
    /// IDENTITY.
    pub const IDENTITY: Keyword = Keyword::Other(Other::Identity);
    /// IF.
    pub const IF: Keyword = Keyword::Other(Other::If);
    /// IMMUTABLE.
    pub const IMMUTABLE: Keyword = Keyword::Other(Other::Immutable);
    /// IMPORT.
    pub const IMPORT: Keyword = Keyword::Verb(Verb::Import);
    /// IN.
    pub const IN: Keyword = Keyword::Other(Other::In);
    /// INCREMENT.
    pub const INCREMENT: Keyword = Keyword::Other(Other::Increment);
    /// INDEX.
    pub const INDEX: Keyword = Keyword::Object(Object::Index);
    /// INHERIT.
    pub const INHERIT: Keyword = Keyword::Other(Other::Inherit);
    /// INITIALLY.
    pub const INITIALLY: Keyword = Keyword::Other(Other::Initially);
    /// INSERT.
    pub const INSERT: Keyword = Keyword::Verb(Verb::Insert);
    /// INTERSECT.
    pub const INTERSECT: Keyword = Keyword::Other(Other::Intersect);
    /// INTERVAL.
    pub const INTERVAL: Keyword = Keyword::Other(Other::Interval);
    /// INTO.
    pub const INTO: Keyword = Keyword::Other(Other::Into);
    /// IS.
    pub const IS: Keyword = Keyword::Other(Other::Is);
    /// KEY.
    pub const KEY: Keyword = Keyword::Other(Other::Key);
    /// LABEL.
    pub const LABEL: Keyword = Keyword::Other(Other::Label);
    /// LANGUAGE.
    pub const LANGUAGE: Keyword = Keyword::Object(Object::Language);
    /// LARGE.
    pub const LARGE: Keyword = Keyword::Object(Object::Large);
    /// LEAKPROOF.
    pub const LEAKPROOF: Keyword = Keyword::Other(Other::Leakproof);
    /// LEVEL.
    pub const LEVEL: Keyword = Keyword::Other(Other::Level);
    /// LIKE.
    pub const LIKE: Keyword = Keyword::Other(Other::Like);
    /// LIMIT.
    pub const LIMIT: Keyword = Keyword::Other(Other::Limit);
    /// LISTEN.
    pub const LISTEN: Keyword = Keyword::Verb(Verb::Listen);
    /// LOAD.
    pub const LOAD: Keyword = Keyword::Verb(Verb::Load);
    /// LOCAL.
    pub const LOCAL: Keyword = Keyword::Other(Other::Local);
    /// LOCK.
    pub const LOCK: Keyword = Keyword::Verb(Verb::Lock);
    /// LOGGED.
    pub const LOGGED: Keyword = Keyword::Other(Other::Logged);
    /// MAPPING.
    pub const MAPPING: Keyword = Keyword::Object(Object::Mapping);
    /// MATCHED.
    pub const MATCHED: Keyword = Keyword::Other(Other::Matched);
    /// MATERIALIZED.
    pub const MATERIALIZED: Keyword = Keyword::Object(Object::Materialized);
    /// MAXVALUE.
    pub const MAXVALUE: Keyword = Keyword::Other(Other::Maxvalue);
    /// MERGE.
    pub const MERGE: Keyword = Keyword::Verb(Verb::Merge);
    /// METHOD.
    pub const METHOD: Keyword = Keyword::Object(Object::Method);
    /// MINVALUE.
    pub const MINVALUE: Keyword = Keyword::Other(Other::Minvalue);
    /// MODE.
    pub const MODE: Keyword = Keyword::Other(Other::Mode);
    /// MOVE.
    pub const MOVE: Keyword = Keyword::Verb(Verb::Move);
    /// NO.
    pub const NO: Keyword = Keyword::Other(Other::No);
    /// NOT.
    pub const NOT: Keyword = Keyword::Other(Other::Not);
    /// NOTIFY.
    pub const NOTIFY: Keyword = Keyword::Verb(Verb::Notify);
    /// NOWAIT.
    pub const NOWAIT: Keyword = Keyword::Other(Other::Nowait);
    /// NULL.
    pub const NULL: Keyword = Keyword::Other(Other::Null);
    /// OBJECT.
    pub const OBJECT: Keyword = Keyword::Object(Object::Object);
    /// OFFSET.
    pub const OFFSET: Keyword = Keyword::Other(Other::Offset);
    /// ON.
    pub const ON: Keyword = Keyword::Other(Other::On);
    /// ONLY.
    pub const ONLY: Keyword = Keyword::Other(Other::Only);
    /// OPERATOR.
    pub const OPERATOR: Keyword = Keyword::Object(Object::Operator);
    /// OPTIONS.
    pub const OPTIONS: Keyword = Keyword::Other(Other::Options);
    /// OR.
    pub const OR: Keyword = Keyword::Other(Other::Or);
    /// ORDER.
    pub const ORDER: Keyword = Keyword::Other(Other::Order);
    /// OWNED.
    pub const OWNED: Keyword = Keyword::Other(Other::Owned);
    /// OWNER.
    pub const OWNER: Keyword = Keyword::Other(Other::Owner);
    /// PARALLEL.
    pub const PARALLEL: Keyword = Keyword::Other(Other::Parallel);
    /// PARSER.
    pub const PARSER: Keyword = Keyword::Object(Object::Parser);
    /// PARTITION.
    pub const PARTITION: Keyword = Keyword::Object(Object::Partition);
    /// POLICY.
    pub const POLICY: Keyword = Keyword::Object(Object::Policy);
    /// PRECISION.
    pub const PRECISION: Keyword = Keyword::Other(Other::Precision);
    /// PREPARE.
    pub const PREPARE: Keyword = Keyword::Verb(Verb::Prepare);
    /// PREPARED.
    pub const PREPARED: Keyword = Keyword::Other(Other::Prepared);
    /// PRIMARY.
    pub const PRIMARY: Keyword = Keyword::Other(Other::Primary);
    /// PRIVILEGES.
    pub const PRIVILEGES: Keyword = Keyword::Object(Object::Privileges);
    /// PROCEDURAL.
    pub const PROCEDURAL: Keyword = Keyword::Other(Other::Procedural);
    /// PROCEDURE.
    pub const PROCEDURE: Keyword = Keyword::Object(Object::Procedure);
    /// PROPERTY.
    pub const PROPERTY: Keyword = Keyword::Object(Object::Property);
    /// PUBLICATION.
    pub const PUBLICATION: Keyword = Keyword::Object(Object::Publication);
    /// REASSIGN.
    pub const REASSIGN: Keyword = Keyword::Verb(Verb::Reassign);
    /// RECURSIVE.
    pub const RECURSIVE: Keyword = Keyword::Other(Other::Recursive);
    /// REFERENCES.
    pub const REFERENCES: Keyword = Keyword::Other(Other::References);
    /// REFRESH.
    pub const REFRESH: Keyword = Keyword::Verb(Verb::Refresh);
    /// REINDEX.
    pub const REINDEX: Keyword = Keyword::Verb(Verb::Reindex);
    /// RELEASE.
    pub const RELEASE: Keyword = Keyword::Verb(Verb::Release);
    /// RENAME.
    pub const RENAME: Keyword = Keyword::Other(Other::Rename);
    /// REPACK.
    pub const REPACK: Keyword = Keyword::Verb(Verb::Repack);
    /// REPLACE.
    pub const REPLACE: Keyword = Keyword::Other(Other::Replace);
    /// REPLICA.
    pub const REPLICA: Keyword = Keyword::Other(Other::Replica);
    /// RESET.
    pub const RESET: Keyword = Keyword::Verb(Verb::Reset);
    /// RESTART.
    pub const RESTART: Keyword = Keyword::Other(Other::Restart);
    /// RETURNING.
    pub const RETURNING: Keyword = Keyword::Other(Other::Returning);
    /// RETURNS.
    pub const RETURNS: Keyword = Keyword::Other(Other::Returns);
    /// REVOKE.
    pub const REVOKE: Keyword = Keyword::Verb(Verb::Revoke);
    /// ROLE.
    pub const ROLE: Keyword = Keyword::Object(Object::Role);
    /// ROLLBACK.
    pub const ROLLBACK: Keyword = Keyword::Verb(Verb::Rollback);
    /// ROUTINE.
    pub const ROUTINE: Keyword = Keyword::Object(Object::Routine);
    /// ROW.
    pub const ROW: Keyword = Keyword::Other(Other::Row);
    /// ROWS.
    pub const ROWS: Keyword = Keyword::Other(Other::Rows);
    /// RULE.
    pub const RULE: Keyword = Keyword::Object(Object::Rule);
    /// SAVEPOINT.
    pub const SAVEPOINT: Keyword = Keyword::Verb(Verb::Savepoint);
    /// SCHEMA.
    pub const SCHEMA: Keyword = Keyword::Object(Object::Schema);
    /// SEARCH.
    pub const SEARCH: Keyword = Keyword::Object(Object::Search);
    /// SECURITY.
    pub const SECURITY: Keyword = Keyword::Other(Other::Security);
    /// SELECT.
    pub const SELECT: Keyword = Keyword::Verb(Verb::Select);
    /// SEQUENCE.
    pub const SEQUENCE: Keyword = Keyword::Object(Object::Sequence);
    /// SERVER.
    pub const SERVER: Keyword = Keyword::Object(Object::Server);
    /// SESSION.
    pub const SESSION: Keyword = Keyword::Other(Other::Session);
    /// SET.
    pub const SET: Keyword = Keyword::Verb(Verb::Set);
    /// SHARE.
    pub const SHARE: Keyword = Keyword::Other(Other::Share);
    /// SHOW.
    pub const SHOW: Keyword = Keyword::Verb(Verb::Show);
    /// STABLE.
    pub const STABLE: Keyword = Keyword::Other(Other::Stable);
    /// START.
    pub const START: Keyword = Keyword::Verb(Verb::Start);
    /// STATISTICS.
    pub const STATISTICS: Keyword = Keyword::Object(Object::Statistics);
    /// STORAGE.
    pub const STORAGE: Keyword = Keyword::Other(Other::Storage);
    /// STRICT.
    pub const STRICT: Keyword = Keyword::Other(Other::Strict);
    /// SUBSCRIPTION.
    pub const SUBSCRIPTION: Keyword = Keyword::Object(Object::Subscription);
    /// SUPPORT.
    pub const SUPPORT: Keyword = Keyword::Other(Other::Support);
    /// SYSTEM.
    pub const SYSTEM: Keyword = Keyword::Object(Object::System);
    /// TABLE.
    pub const TABLE: Keyword = Keyword::Object(Object::Table);
    /// TABLESPACE.
    pub const TABLESPACE: Keyword = Keyword::Object(Object::Tablespace);
    /// TEMP.
    pub const TEMP: Keyword = Keyword::Other(Other::Temp);
    /// TEMPLATE.
    pub const TEMPLATE: Keyword = Keyword::Object(Object::Template);
    /// TEMPORARY.
    pub const TEMPORARY: Keyword = Keyword::Other(Other::Temporary);
    /// TEXT.
    pub const TEXT: Keyword = Keyword::Object(Object::Text);
    /// THEN.
    pub const THEN: Keyword = Keyword::Other(Other::Then);
    /// TIME.
    pub const TIME: Keyword = Keyword::Other(Other::Time);
    /// TIMESTAMP.
    pub const TIMESTAMP: Keyword = Keyword::Other(Other::Timestamp);
    /// TO.
    pub const TO: Keyword = Keyword::Other(Other::To);
    /// TRANSACTION.
    pub const TRANSACTION: Keyword = Keyword::Other(Other::Transaction);
    /// TRANSFORM.
    pub const TRANSFORM: Keyword = Keyword::Object(Object::Transform);
    /// TRIGGER.
    pub const TRIGGER: Keyword = Keyword::Object(Object::Trigger);
    /// TRUE.
    pub const TRUE: Keyword = Keyword::Other(Other::True);
    /// TRUNCATE.
    pub const TRUNCATE: Keyword = Keyword::Verb(Verb::Truncate);
    /// TRUSTED.
    pub const TRUSTED: Keyword = Keyword::Other(Other::Trusted);
    /// TYPE.
    pub const TYPE: Keyword = Keyword::Object(Object::Type);
    /// UNION.
    pub const UNION: Keyword = Keyword::Other(Other::Union);
    /// UNIQUE.
    pub const UNIQUE: Keyword = Keyword::Other(Other::Unique);
    /// UNLISTEN.
    pub const UNLISTEN: Keyword = Keyword::Verb(Verb::Unlisten);
    /// UNLOGGED.
    pub const UNLOGGED: Keyword = Keyword::Other(Other::Unlogged);
    /// UPDATE.
    pub const UPDATE: Keyword = Keyword::Verb(Verb::Update);
    /// USER.
    pub const USER: Keyword = Keyword::Object(Object::User);
    /// USING.
    pub const USING: Keyword = Keyword::Other(Other::Using);
    /// VACUUM.
    pub const VACUUM: Keyword = Keyword::Verb(Verb::Vacuum);
    /// VALID.
    pub const VALID: Keyword = Keyword::Other(Other::Valid);
    /// VALIDATE.
    pub const VALIDATE: Keyword = Keyword::Other(Other::Validate);
    /// VALUE.
    pub const VALUE: Keyword = Keyword::Other(Other::Value);
    /// VALUES.
    pub const VALUES: Keyword = Keyword::Verb(Verb::Values);
    /// VARCHAR.
    pub const VARCHAR: Keyword = Keyword::Other(Other::Varchar);
    /// VARYING.
    pub const VARYING: Keyword = Keyword::Other(Other::Varying);
    /// VERBOSE.
    pub const VERBOSE: Keyword = Keyword::Other(Other::Verbose);
    /// VIEW.
    pub const VIEW: Keyword = Keyword::Object(Object::View);
    /// VOLATILE.
    pub const VOLATILE: Keyword = Keyword::Other(Other::Volatile);
    /// WHEN.
    pub const WHEN: Keyword = Keyword::Other(Other::When);
    /// WHERE.
    pub const WHERE: Keyword = Keyword::Other(Other::Where);
    /// WINDOW.
    pub const WINDOW: Keyword = Keyword::Other(Other::Window);
    /// WITH.
    pub const WITH: Keyword = Keyword::Verb(Verb::With);
    /// WITHOUT.
    pub const WITHOUT: Keyword = Keyword::Other(Other::Without);
    /// WORK.
    pub const WORK: Keyword = Keyword::Other(Other::Work);
    /// WRAPPER.
    pub const WRAPPER: Keyword = Keyword::Object(Object::Wrapper);
    /// ZONE.
    pub const ZONE: Keyword = Keyword::Other(Other::Zone);
}

/// Whether the two are one keyword: `==`, under a name that clauses and proofs keep whole.
#[tactic(auto, unfolding(crate::specs::Same::same_keyword))]
pub fn same_keyword(a: Keyword, b: Keyword) -> bool
    ensures { result ≡ same_keyword a b }
{
    a == b
}
