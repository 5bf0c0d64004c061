//! Migrations as tools write them.

use crate::shown::are_found;
use std::test::Fail;

/// A text, and what is found in it.
const MIGRATIONS: &[(&str, &str)] = &[
    (
        "BEGIN;\n--\n-- Add field status to order\n--\nALTER TABLE \"shop_order\" ADD COLUMN \"status\" varchar(20) DEFAULT 'new' NOT NULL;\nALTER TABLE \"shop_order\" ALTER COLUMN \"status\" DROP DEFAULT;\n--\n-- Create index shop_order_status_idx\n--\nCREATE INDEX \"shop_order_status_idx\" ON \"shop_order\" (\"status\");\n--\n-- Add FK customer\n--\nALTER TABLE \"shop_order\" ADD COLUMN \"customer_id\" bigint NULL CONSTRAINT \"shop_order_customer_id_fk\" REFERENCES \"shop_customer\"(\"id\") DEFERRABLE INITIALLY DEFERRED; SET CONSTRAINTS \"shop_order_customer_id_fk\" IMMEDIATE;\nCREATE INDEX \"shop_order_customer_id_idx\" ON \"shop_order\" (\"customer_id\");\nCOMMIT;\n",
        "",
    ),
    (
        "BEGIN;\nSET lock_timeout = '5s';\nSET statement_timeout = '60s';\nALTER TABLE \"users\" ADD \"uuid\" uuid DEFAULT gen_random_uuid() NOT NULL;\nCREATE UNIQUE INDEX \"index_users_on_uuid\" ON \"users\" (\"uuid\");\nALTER TABLE \"posts\" ADD CONSTRAINT \"fk_rails_5b5ddfd518\" FOREIGN KEY (\"user_id\") REFERENCES \"users\" (\"id\");\nALTER TABLE \"posts\" RENAME COLUMN \"body\" TO \"content\";\nINSERT INTO \"schema_migrations\" (\"version\") VALUES ('20240101000000');\nCOMMIT;\n",
        "",
    ),
    (
        "BEGIN;\n\n-- Running upgrade a1b2 -> c3d4\n\nCREATE TYPE order_state AS ENUM ('NEW', 'PAID');\nALTER TABLE orders ADD COLUMN state order_state DEFAULT 'NEW' NOT NULL;\nALTER TABLE orders ALTER COLUMN total TYPE NUMERIC(14, 2) USING total::numeric;\nUPDATE orders SET state = 'PAID' WHERE paid_at IS NOT NULL;\nALTER TABLE orders ALTER COLUMN paid_by SET NOT NULL;\nUPDATE alembic_version SET version_num='c3d4' WHERE alembic_version.version_num = 'a1b2';\n\nCOMMIT;\n",
        "",
    ),
    (
        "-- V12__add_audit.sql\nCREATE TABLE audit_log (\n    id BIGINT GENERATED ALWAYS AS IDENTITY PRIMARY KEY,\n    entity VARCHAR(100) NOT NULL,\n    payload JSON NOT NULL,\n    created_at TIMESTAMP DEFAULT CURRENT_TIMESTAMP\n);\nCREATE INDEX idx_audit_entity ON audit_log (entity);\nCREATE OR REPLACE FUNCTION audit() RETURNS trigger LANGUAGE plpgsql AS $$\nBEGIN\n  INSERT INTO audit_log(entity, payload) VALUES (TG_TABLE_NAME, row_to_json(NEW));\n  RETURN NEW;\nEND $$;\nCREATE TRIGGER orders_audit AFTER INSERT OR UPDATE ON orders FOR EACH ROW EXECUTE FUNCTION audit();\n",
        "",
    ),
    (
        "/*\n  Warnings:\n\n  - You are about to drop the column `name` on the `User` table. All the data in the column will be lost.\n  - Added the required column `firstName` to the `User` table without a default value. This is not possible if the table is not empty.\n\n*/\n-- AlterTable\nALTER TABLE \"User\" DROP COLUMN \"name\",\nADD COLUMN     \"firstName\" TEXT NOT NULL,\nADD COLUMN     \"updatedAt\" TIMESTAMP(3) NOT NULL;\n\n-- CreateTable\nCREATE TABLE \"Profile\" (\n    \"id\" SERIAL NOT NULL,\n    \"bio\" TEXT,\n    \"userId\" INTEGER NOT NULL,\n\n    CONSTRAINT \"Profile_pkey\" PRIMARY KEY (\"id\")\n);\n\n-- CreateIndex\nCREATE UNIQUE INDEX \"Profile_userId_key\" ON \"Profile\"(\"userId\");\n\n-- AddForeignKey\nALTER TABLE \"Profile\" ADD CONSTRAINT \"Profile_userId_fkey\" FOREIGN KEY (\"userId\") REFERENCES \"User\"(\"id\") ON DELETE RESTRICT ON UPDATE CASCADE;\n-- AlterEnum\nBEGIN;\nCREATE TYPE \"Role_new\" AS ENUM ('USER', 'ADMIN');\nALTER TABLE \"User\" ALTER COLUMN \"role\" DROP DEFAULT;\nALTER TABLE \"User\" ALTER COLUMN \"role\" TYPE \"Role_new\" USING (\"role\"::text::\"Role_new\");\nALTER TYPE \"Role\" RENAME TO \"Role_old\";\nALTER TYPE \"Role_new\" RENAME TO \"Role\";\nDROP TYPE \"Role_old\";\nALTER TABLE \"User\" ALTER COLUMN \"role\" SET DEFAULT 'USER';\nCOMMIT;\n",
        "",
    ),
    (
        "--liquibase formatted sql\n\n--changeset anna:1\nALTER TABLE public.account ADD id2 BIGSERIAL;\n--rollback ALTER TABLE public.account DROP COLUMN id2;\n\n--changeset anna:2 runInTransaction:false\nCREATE INDEX CONCURRENTLY account_id2_idx ON public.account (id2);\n\n--changeset anna:3\nALTER TABLE public.account ADD CONSTRAINT account_email_uk UNIQUE (email);\nCREATE SEQUENCE  IF NOT EXISTS public.invoice_seq AS bigint START WITH 1 INCREMENT BY 1 MINVALUE 1 MAXVALUE 9223372036854775807 CACHE 1;\nALTER TABLE public.account ALTER COLUMN  created TYPE TIMESTAMP WITH TIME ZONE USING (created::TIMESTAMP WITH TIME ZONE);\n",
        "73..90 table-rewrite",
    ),
    (
        "BEGIN;\nALTER TYPE order_state ADD VALUE IF NOT EXISTS 'REFUNDED' AFTER 'PAID';\nUPDATE orders SET state = 'REFUNDED' WHERE refunded;\nCOMMIT;\n",
        "",
    ),
    (
        "BEGIN;\nSET LOCAL lock_timeout = '2s';\nSET LOCAL statement_timeout = '30s';\nCREATE TABLE IF NOT EXISTS events_2025_01 PARTITION OF events FOR VALUES FROM ('2025-01-01') TO ('2025-02-01');\nALTER TABLE events ATTACH PARTITION events_2025_02 FOR VALUES FROM ('2025-02-01') TO ('2025-03-01');\nALTER TABLE events DETACH PARTITION events_2023_01;\nDROP TABLE events_2023_01;\nCREATE INDEX events_user_idx ON events (user_id);\nCOMMIT;\n",
        "",
    ),
    (
        "SET lock_timeout = '2s';\nSET statement_timeout = '10s';\nALTER TABLE orders ADD CONSTRAINT orders_email_nn CHECK (email IS NOT NULL) NOT VALID;\nALTER TABLE orders VALIDATE CONSTRAINT orders_email_nn;\nALTER TABLE orders ALTER COLUMN email SET NOT NULL;\nALTER TABLE orders DROP CONSTRAINT orders_email_nn;\n",
        "",
    ),
    (
        "CREATE INDEX CONCURRENTLY IF NOT EXISTS orders_email_idx ON orders (email);\n",
        "0..75 invalid-index-kept",
    ),
    (
        "BEGIN;\nSET LOCAL lock_timeout = '2s';\nSET LOCAL statement_timeout = '10s';\nALTER TABLE documents ENABLE ROW LEVEL SECURITY;\nCREATE POLICY tenant ON documents USING (tenant_id = current_setting('app.tenant')::uuid);\nGRANT SELECT ON documents TO app;\nCOMMIT;\n",
        "",
    ),
    (
        "SET lock_timeout = '2s';\nSET statement_timeout = '10s';\nVACUUM FULL orders;\nCLUSTER orders USING orders_pkey;\nALTER TABLE orders SET UNLOGGED;\nALTER TABLE orders SET TABLESPACE fast;\nREFRESH MATERIALIZED VIEW order_stats;\nLOCK TABLE orders IN ACCESS EXCLUSIVE MODE;\nTRUNCATE sessions;\nDELETE FROM sessions;\nUPDATE orders SET total = total * 100;\n",
        "56..75 table-rewrite; 76..109 table-rewrite; 129..141 table-rewrite; 162..181 table-rewrite; 183..221 refresh-blocks-reads",
    ),
    (
        "BEGIN;\nSET LOCAL lock_timeout = '2s';\nSET LOCAL statement_timeout = '10s';\nDROP INDEX CONCURRENTLY IF EXISTS orders_old_idx;\nREINDEX TABLE CONCURRENTLY orders;\nALTER TABLE events DETACH PARTITION events_2023_01 CONCURRENTLY;\nVACUUM orders;\nCOMMIT;\n",
        "75..124 statement-in-transaction; 125..159 statement-in-transaction; 179..223 statement-in-transaction; 225..239 statement-in-transaction",
    ),
    (
        "SET lock_timeout = '2s';\nSET statement_timeout = '10s';\nALTER TABLE orders ADD COLUMN IF NOT EXISTS new_id bigint;\nCREATE OR REPLACE FUNCTION orders_new_id() RETURNS trigger AS $$ BEGIN NEW.new_id := NEW.id; RETURN NEW; END $$ LANGUAGE plpgsql;\nCREATE TRIGGER orders_new_id BEFORE INSERT ON orders FOR EACH ROW EXECUTE FUNCTION orders_new_id();\nDO $$ BEGIN FOR i IN 0..100 LOOP UPDATE orders SET new_id = id WHERE id BETWEEN i*1000 AND i*1000+999; COMMIT; END LOOP; END $$;\nCREATE UNIQUE INDEX CONCURRENTLY IF NOT EXISTS orders_new_id_key ON orders (new_id);\nBEGIN;\nALTER TABLE orders ALTER COLUMN new_id SET NOT NULL;\nALTER TABLE orders DROP CONSTRAINT orders_pkey, ADD CONSTRAINT orders_pkey PRIMARY KEY USING INDEX orders_new_id_key;\nALTER TABLE orders RENAME COLUMN id TO old_id;\nALTER TABLE orders RENAME COLUMN new_id TO id;\nCOMMIT;\n",
        "474..558 build-under-timeout; 474..558 invalid-index-kept",
    ),
    (
        "SET lock_timeout = '2s';\nSET statement_timeout = '10s';\nALTER TABLE products ADD COLUMN IF NOT EXISTS score int DEFAULT -1 NOT NULL;\nALTER TABLE products ADD COLUMN IF NOT EXISTS expires timestamptz DEFAULT now() + interval '30 days';\nALTER TABLE products ADD COLUMN IF NOT EXISTS tags text[] DEFAULT '{}'::text[] NOT NULL;\nALTER TABLE products ADD COLUMN IF NOT EXISTS seq bigserial NOT NULL;\nALTER TABLE products ADD COLUMN IF NOT EXISTS mail email_domain;\nALTER TABLE products ADD COLUMN IF NOT EXISTS doc json;\nALTER TABLE products ADD COLUMN IF NOT EXISTS code varchar(10) CHECK (length(code) > 2);\nALTER TABLE products ALTER COLUMN name TYPE text;\nALTER TABLE products ADD CONSTRAINT no_overlap EXCLUDE USING gist (room WITH =, during WITH &&);\nCREATE TABLE order_items (id bigint GENERATED ALWAYS AS IDENTITY PRIMARY KEY, order_id bigint REFERENCES orders, product_id bigint NOT NULL);\nALTER TABLE order_items ADD CONSTRAINT oi_product FOREIGN KEY (product_id) REFERENCES products (id);\nCREATE INDEX order_items_order ON order_items (order_id);\nDROP INDEX IF EXISTS old_idx;\n",
        "345..392 table-rewrite; 509..513 json-column; 578..602 column-with-check",
    ),
    // A dump of pg_dump. The data of its COPY are blank, as in the text that is judged of a file that was made for psql.
    (
        "SET statement_timeout = 0;\nSET lock_timeout = 0;\nSET client_encoding = 'UTF8';\nSET standard_conforming_strings = on;\nSELECT pg_catalog.set_config('search_path', '', false);\nCREATE TABLE public.t (id integer NOT NULL, name text);\nALTER TABLE public.t OWNER TO app;\nCREATE SEQUENCE public.t_id_seq AS integer START WITH 1 INCREMENT BY 1 NO MINVALUE NO MAXVALUE CACHE 1;\nALTER SEQUENCE public.t_id_seq OWNED BY public.t.id;\nALTER TABLE ONLY public.t ALTER COLUMN id SET DEFAULT nextval('public.t_id_seq'::regclass);\nCOPY public.t (id, name) FROM stdin;\n \t    \n \t \n  \nSELECT pg_catalog.setval('public.t_id_seq', 2, true);\nALTER TABLE ONLY public.t ADD CONSTRAINT t_pkey PRIMARY KEY (id);\nCREATE INDEX t_name ON public.t USING btree (name);\n",
        "",
    ),
];

#[test]
fn migrations_found(rt: HostRuntime) -> Result<(), Fail> {
    are_found(&rt, rt.alloc(), MIGRATIONS)
}
