//! Laws that show that the numbers mean what they should. Each function does nothing: its contract is
//! the law.

ghost use Rattle.std.specs.Prelude.{◌≡◌, ◌<◌, ◌%◌, ℕ};
ghost use Rattle.log_base.specs.ClusterShape.{InRange, Shape};
ghost use Rattle.node_table.specs.declared.role.Role.{Role};
ghost use Rattle.node_table.specs.declared.role.Role.TheVariants.{Gatherer};
ghost use Rattle.node_table.specs.Numbering.{IsRole, disk_of, gatherer_of, node_of, nodes_of, role_at};

/// Each number below the count of nodes has a role of the cluster, and is that role's number.
pub fn one_role_each()
    ensures { (shape : Shape) (node : ℕ) → InRange shape → node < nodes_of shape
        → IsRole shape (role_at shape node) × (node_of shape (role_at shape node) ≡ node) }
{}

/// Each role of the cluster has a number below the count of nodes, and that number has this role. The
/// gatherers serve the shards in turn.
pub fn one_node_each()
    ensures role { (shape : Shape) (role : Role) → InRange shape → IsRole shape role
        → (node_of shape role < nodes_of shape) × (role_at shape (node_of shape role) ≡ role) }
    ensures gatherer { (shape : Shape) (shard : ℕ) → InRange shape
        → role_at shape (gatherer_of shape shard) ≡ Gatherer (shard % shape.gatherers) }
{}

/// Different segments have different disks, also those of different nodes.
pub fn disks_differ()
    ensures { (node other segment other_segment : ℕ) → segment < 8 → other_segment < 8
        → disk_of node segment ≡ disk_of other other_segment
        → (node ≡ other) × (segment ≡ other_segment) }
{}
