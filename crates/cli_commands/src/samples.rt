//! Messages of the vectors.
use bytes::BytesMut;
use messages::{MsgFault, Response, read_request, write_request, write_response};
use std::alloc::{AllocError, Global};
use structures::{Cell, Node, Path, UnboundRelationship, fit};
use wire::Version;

/// Whether the bytes are a request of the version, and are what is written of it.
pub(crate) fn is_request(
    alloc: Global,
    version: Version,
    bytes: &[u8],
) -> Result<bool, AllocError> {
    let request = match read_request(alloc, version, bytes) {
        Ok(request) => request,
        Err(MsgFault::Memory) => return Err(AllocError),
        Err(_) => return Ok(false),
    };
    let mut out = BytesMut::new(alloc);
    match write_request(version, &request, &mut out) {
        Ok(()) => Ok(out.as_slice() == bytes),
        Err(MsgFault::Memory) => Err(AllocError),
        Err(_) => Ok(false),
    }
}

/// Whether the bytes are what is written of the response.
pub(crate) fn is_written(
    alloc: Global,
    version: Version,
    response: &Response,
    bytes: &[u8],
) -> Result<bool, AllocError> {
    let mut out = BytesMut::new(alloc);
    match write_response(version, response, &mut out) {
        Ok(()) => Ok(out.as_slice() == bytes),
        Err(MsgFault::Memory) => Err(AllocError),
        Err(_) => Ok(false),
    }
}

/// The SUCCESS of a query with one field, `i`.
pub(crate) fn success(alloc: Global) -> Result<Response, AllocError> {
    let fields = vec![in alloc; Cell::Text(String::from_str(alloc, "i")?)]?;
    let mut metadata = Vec::new(alloc);
    metadata.push(entry(alloc, "fields", Cell::List(fields))?)?;
    metadata.push(entry(alloc, "t_first", Cell::Int(0))?)?;
    Ok(Response::Success(metadata))
}

fn entry(alloc: Global, key: &str, cell: Cell) -> Result<(String, Cell), AllocError> {
    Ok((String::from_str(alloc, key)?, cell))
}

/// The FAILURE of a query of unknown text.
pub(crate) fn failure(alloc: Global) -> Result<Response, AllocError> {
    Ok(Response::Failure {
        code: String::from_str(alloc, "Neo.ClientError.Statement.UnknownText")?,
        message: String::from_str(alloc, "unknown text")?,
    })
}

/// The RECORD of a path from node 1 (`A`) over relationship 7 (`TO`) to node 2 (`B`) in the form of the version.
pub(crate) fn walk(alloc: Global, version: Version) -> Result<Response, AllocError> {
    let cell = match fit(alloc, path(alloc)?, version) {
        Ok(cell) => cell,
        Err(_) => return Err(AllocError),
    };
    let mut row = Vec::new(alloc);
    row.push(cell)?;
    Ok(Response::Record(row))
}

fn path(alloc: Global) -> Result<Cell, AllocError> {
    let nodes = nodes(alloc)?;
    let relationships = relationships(alloc)?;
    let indices = vec![in alloc; 1, 1]?;
    let path = Path {
        nodes,
        relationships,
        indices,
    };
    Ok(Cell::Path(Box::new(alloc, path)?))
}

fn nodes(alloc: Global) -> Result<Vec<Node>, AllocError> {
    let mut nodes = Vec::new(alloc);
    nodes.push(node(alloc, 1, "A")?)?;
    nodes.push(node(alloc, 2, "B")?)?;
    Ok(nodes)
}

fn relationships(alloc: Global) -> Result<Vec<UnboundRelationship>, AllocError> {
    let mut relationships = Vec::new(alloc);
    relationships.push(UnboundRelationship {
        id: 7,
        kind: String::from_str(alloc, "TO")?,
        properties: Vec::new(alloc),
        element_id: None,
    })?;
    Ok(relationships)
}

fn node(alloc: Global, id: i64, label: &str) -> Result<Node, AllocError> {
    let mut labels = Vec::new(alloc);
    labels.push(String::from_str(alloc, label)?)?;
    Ok(Node {
        id,
        labels,
        properties: Vec::new(alloc),
        element_id: None,
    })
}
