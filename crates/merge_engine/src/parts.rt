//! The parts of a cache as one value, from map and log to victims and checkpoints.

use block_pool::Pool;
use checkpoint::Checkpoints;
use ft_base::Geometry;
use log_blocks::LogBlocks;
use mapping::Map;
use op_log::OpLog;
use silent_evict::Victims;

/// The parts of a cache, which its steps take together.
#[derive(Drop)]
pub struct Parts {
    /// The numbers that all parts share.
    pub geometry: Geometry,
    /// The place of the block of each held address.
    pub map: Map,
    /// The buffered changes of the map, and the page to which the next ones go.
    pub log: OpLog,
    /// The role of each erase block of the pool.
    pub pool: Pool,
    /// The choice of the clean group that gives way.
    pub victims: Victims,
    /// The log blocks, and the open one.
    pub log_blocks: LogBlocks,
    /// The checkpoints of the map.
    pub checkpoints: Checkpoints,
}
